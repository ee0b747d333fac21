//! Functions that do nothing. Their contracts are the laws of `specs/Laws.antt`, so a check proves
//! these.
ghost use Rattle.file_stream.specs.Laws.{FilesAreTheStream, WorkedStreams};

/// The files, one behind the other, are the front of the stream, and on the lines behind it nothing
/// stands.
#[tactic(auto, using(crate::proofs::Joined::files_are_the_stream))]
pub fn files_are_the_stream()
    ensures { FilesAreTheStream }
{}

/// Some small streams, and their files.
#[tactic(auto, using(crate::proofs::Joined::worked_streams))]
pub fn worked_streams()
    ensures { WorkedStreams }
{}
