//! The counter, and those who draw its numbers.
ghost use Rattle.std.specs.Prelude.{◌≡◌, ℕ, ◌<◌, ◌≤◌, ◌/◌, [], length, IfOk};
ghost use Rattle.job_counter.specs.Numbers.{times, once_below};
ghost use Rattle.job_counter.specs.declared.counter.TheConstants.{ALL_PARTS};

use crate::plays::{Count, Draw, Halves, Numbers, Union};
use crate::view::Hand;
use atomic_table::{Seat, Table};
use lattice::Memory;
use std::alloc::Global;

/// The parts that the drawers of a counter have in all. Each bounds one draw.
pub const ALL_PARTS: u64 = 1 << 40;

/// A counter that threads share. It gives out the numbers from 0 on, each once, by one atomic
/// addition a number.
#[derive(Drop)]
pub struct Counter {
    table: Table<(), Hand, (), Numbers, Global>,
    ghost one_word: { table.shared.table_id.words ≡ 1 },
}

/// One who draws numbers of a counter. Clauses see its parts, of which there are `ALL_PARTS` in all
/// and which bound how many numbers it may draw, and the numbers that it drew: `drawing`. It has no
/// lifetime, so that a thread can be handed one.
#[derive(Drop)]
pub struct Drawer {
    seat: Seat<(), Hand>,
    ghost bare: { seat.me.1 ≡ [] },
}

impl Counter {
    ghost use Rattle.job_counter.specs.Drawing.{drawing, name, IsOf, first_drawing, more_drawn};
    ghost use Rattle.job_counter.specs.Drawing.{left_half, right_half, together};

    /// A counter of which no number is drawn yet, and the drawer that has all its parts.
    #[tactic(auto, unfolding(crate::specs::Drawing::drawing, crate::specs::Drawing::name))]
    pub fn make(alloc: Global) -> Result<(Counter, Drawer), Memory>
        ensures { IfOk result (λ r. drawing r.1 ≡ first_drawing (name r.0)) }
    {
        let (table, seat) = Table::of_words(alloc, &[0], &())?;
        Ok((Counter { table }, Drawer { seat }))
    }

    /// Draws the next number. Those that the drawer drew before are below it, each once.
    #[tactic(auto, unfolding(crate::specs::Drawing::drawing, crate::specs::Drawing::name))]
    pub fn draw(&self, drawer: &mut Drawer) -> u64
        requires of { IsOf drawer.old self.now }
        requires part { length (drawing drawer.old).drawn < (drawing drawer.old).parts }
        ensures more { drawing drawer.new ≡ more_drawn (drawing drawer.old) result }
        ensures once { (x : ℕ) → times x (drawing drawer.old).drawn ≤ once_below x result }
    {
        self.table.shared.fetch_add::<Draw>(&mut drawer.seat, 0, 1)
    }

    /// Gives half of the drawer's parts to a second drawer, which drew nothing yet.
    #[tactic(auto, unfolding(crate::specs::Drawing::drawing, crate::specs::Drawing::name))]
    pub fn split(&self, drawer: &mut Drawer) -> Drawer
        requires of { IsOf drawer.old self.now }
        requires few { length (drawing drawer.old).drawn ≤ (drawing drawer.old).parts / 2 }
        ensures left { drawing drawer.new ≡ left_half (drawing drawer.old) }
        ensures right { drawing result ≡ right_half (drawing drawer.old) }
    {
        let seat = self.table.shared.split_seat::<Halves>(&mut drawer.seat);
        Drawer { seat }
    }

    /// Takes in the parts of the other drawer, and the numbers that it drew.
    #[tactic(auto, unfolding(crate::specs::Drawing::drawing, crate::specs::Drawing::name))]
    pub fn join(&self, drawer: &mut Drawer, other: Drawer)
        requires of { IsOf drawer.old self.now }
        requires other { IsOf other self.now }
        ensures { drawing drawer.new ≡ together (drawing drawer.old) (drawing other) }
    {
        let Drawer { seat } = other;
        self.table.shared.join_seat::<Union>(&mut drawer.seat, seat);
    }

    /// How many numbers were drawn. A drawer that has all parts again drew each number below it
    /// once, and no other.
    #[tactic(auto, unfolding(crate::specs::Drawing::drawing, crate::specs::Drawing::name))]
    pub fn all_drawn(&self, drawer: &mut Drawer) -> u64
        requires { IsOf drawer.old self.now }
        ensures same { drawing drawer.new ≡ drawing drawer.old }
        ensures count { (drawing drawer.old).parts ≡ ALL_PARTS
            → length (drawing drawer.old).drawn ≡ result }
        ensures once { (drawing drawer.old).parts ≡ ALL_PARTS
            → (x : ℕ) → times x (drawing drawer.old).drawn ≡ once_below x result }
    {
        self.table.shared.load::<Count>(&mut drawer.seat, 0)
    }
}
