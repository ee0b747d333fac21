//! Functions that do nothing. Their contracts are the laws of `specs/Laws.antt`,
//! `specs/TableLaws.antt` and `specs/IdealLaws.antt`, so a check proves these.
ghost use Rattle.lattice.specs.Laws.{DividesByBits, OrderIsStrict, InterpolateIsLeast};
ghost use Rattle.lattice.specs.Laws.{LeastIsUnique, LeastSplits, DivisorsAreStandard};
ghost use Rattle.lattice.specs.Laws.{StandardSplitsLow, StandardSplitsHigh, LeastIsStandard};
ghost use Rattle.lattice.specs.Laws.{StandardIsLeast, StandardCount, CountDecidesStandard};
ghost use Rattle.lattice.specs.Laws.{BasisElementFromLeast, ReducedBasisIsUnique, LeastOverMore};
ghost use Rattle.lattice.specs.Laws.{StandardOverMore, FamilyIsItsMembers, CofactorsByBit};
ghost use Rattle.lattice.specs.Laws.{FamilyIsJoin, StandardByRecursion, LeadsAreMinimal};
ghost use Rattle.lattice.specs.Laws.{ReducedBasisExists, PolynomialByValues, ProductByValues};
ghost use Rattle.lattice.specs.Laws.{CarePointsAreDisjoint, WorkingSetMembers};
ghost use Rattle.lattice.specs.Laws.{WorkingSetIsNodeList, LeadsByRecursion, FillingKeepsCanonical};
ghost use Rattle.lattice.specs.Laws.{DenotedStays, HistoryStaysFit, DenotedIsOne, HandleIsOne};
ghost use Rattle.lattice.specs.Laws.{StoredFit, FittingIsLegal, HistoriesAppend, TrueWordStays};
ghost use Rattle.lattice.specs.Laws.{ConsistentByRows, RoseIsGreater};
ghost use Rattle.lattice.specs.TableLaws.{FillingKeepsWords, HandlesDenote, KnownIsOneToOne};
ghost use Rattle.lattice.specs.TableLaws.{UnionAgrees, AgreementStays};
ghost use Rattle.lattice.specs.TableLaws.{WordsAreSound, FittingIsSound, PathIsWhole};
ghost use Rattle.lattice.specs.IdealLaws.{IntersectionIsOfUnion, SumIsOfIntersection};
ghost use Rattle.lattice.specs.IdealLaws.{LeadsOfIdeal, BasisOfIdeal};

/// A monomial divides a point exactly where every bit of it is a bit of the point.
#[tactic(auto, using(crate::proofs::Values::divides_by_bits))]
pub fn divides_by_bits()
    ensures { DividesByBits }
{}

/// The order of polynomials is strict.
#[tactic(auto, using(crate::proofs::Least::IsLess_asym))]
pub fn order_is_strict()
    ensures { OrderIsStrict }
{}

/// Disjoint lists of points have a least polynomial.
pub fn interpolate_is_least()
    ensures { InterpolateIsLeast }
{}

/// There is one least polynomial at most.
pub fn least_is_unique()
    ensures { LeastIsUnique }
{}

/// The least polynomial is made of two over one variable fewer.
pub fn least_splits()
    ensures { LeastSplits }
{}

/// Divisors of standard monomials are standard.
pub fn divisors_are_standard()
    ensures { DivisorsAreStandard }
{}

/// The standard monomials without the greatest variable.
pub fn standard_splits_low()
    ensures { StandardSplitsLow }
{}

/// The standard monomials with the greatest variable.
pub fn standard_splits_high()
    ensures { StandardSplitsHigh }
{}

/// The least polynomial has standard monomials only.
pub fn least_is_standard()
    ensures { LeastIsStandard }
{}

/// A polynomial of standard monomials that fits is the least one.
pub fn standard_is_least()
    ensures { StandardIsLeast }
{}

/// There are as many standard monomials as points.
pub fn standard_count()
    ensures { StandardCount }
{}

/// A count decides which monomials are standard.
pub fn count_decides_standard()
    ensures { CountDecidesStandard }
{}

/// The element of the reduced basis with a given lead.
pub fn basis_element_from_least()
    ensures { BasisElementFromLeast }
{}

/// A set of points has one reduced basis at most.
pub fn reduced_basis_is_unique()
    ensures { ReducedBasisIsUnique }
{}

/// More variables leave the least polynomial.
pub fn least_over_more()
    ensures { LeastOverMore }
{}

/// More variables leave the standard monomials.
pub fn standard_over_more()
    ensures { StandardOverMore }
{}

/// A family is given by the test of being a member.
pub fn family_is_its_members()
    ensures { FamilyIsItsMembers }
{}

/// The cofactors of a family, by the bit of the variable.
pub fn cofactors_by_bit()
    ensures { CofactorsByBit }
{}

/// A family is the join of its cofactors.
#[tactic(auto, using(crate::proofs::Cofactors::join_cofactors))]
pub fn family_is_join()
    ensures { FamilyIsJoin }
{}

/// The recursion gives the standard monomials.
pub fn standard_by_recursion()
    ensures { StandardByRecursion }
{}

/// The minimal monomials that are not standard are the leads.
pub fn leads_are_minimal()
    ensures { LeadsAreMinimal }
{}

/// A set of points has a reduced basis.
#[tactic(auto, using(crate::proofs::Results::reduced_basis_exists))]
pub fn reduced_basis_exists()
    ensures { ReducedBasisExists }
{}

/// The polynomial with given ones has these ones.
pub fn polynomial_by_values()
    ensures { PolynomialByValues }
{}

/// A product has the products of the values.
#[tactic(auto, using(crate::proofs::Results::product_by_values))]
pub fn product_by_values()
    ensures { ProductByValues }
{}

/// No care point of a consistent output has both values.
pub fn care_points_are_disjoint()
    ensures { CarePointsAreDisjoint }
{}

/// What a working set has.
#[tactic(auto, using(crate::proofs::WorkingSets::working_set_members))]
pub fn working_set_members()
    ensures { WorkingSetMembers }
{}

/// A working set is a list of families of nodes.
#[tactic(auto, using(crate::proofs::WorkingSets::working_set_is_node_list))]
pub fn working_set_is_node_list()
    ensures { WorkingSetIsNodeList }
{}

/// The leads by recursion on the variables.
#[tactic(auto, using(crate::proofs::Results::leads_by_recursion))]
pub fn leads_by_recursion()
    ensures { LeadsByRecursion }
{}

/// Filling a place as it may be filled leaves the table canonical.
pub fn filling_keeps_canonical()
    ensures { FillingKeepsCanonical }
{}

/// What a filled slot denotes stays.
pub fn denoted_stays()
    ensures { DenotedStays }
{}

/// What a history fits stays.
pub fn history_stays_fit()
    ensures { HistoryStaysFit }
{}

/// A handle denotes one family at most.
pub fn denoted_is_one()
    ensures { DenotedIsOne }
{}

/// No two handles denote one family.
pub fn handle_is_one()
    ensures { HandleIsOne }
{}

/// Stored families are no more than slots.
pub fn stored_fit()
    ensures { StoredFit }
{}

/// A history that fits a canonical table is legal.
pub fn fitting_is_legal()
    ensures { FittingIsLegal }
{}

/// Two histories that fit a table make one.
pub fn histories_append()
    ensures { HistoriesAppend }
{}

/// A true cache word stays true.
pub fn true_word_stays()
    ensures { TrueWordStays }
{}

/// A count rose where it is greater than before, or stands at its greatest value.
pub fn rose_is_greater()
    ensures { RoseIsGreater }
{}

/// A description is consistent where no on-row and off-row of one output share a point.
pub fn consistent_by_rows()
    ensures { ConsistentByRows }
{}

/// The probe path of a word comes to each place of the table once.
pub fn path_is_whole()
    ensures { PathIsWhole }
{}

/// Filling a vacant place keeps the words of all filled ones.
pub fn filling_keeps_words()
    ensures { FillingKeepsWords }
{}

/// In a canonical table each handle denotes a family.
pub fn handles_denote()
    ensures { HandlesDenote }
{}

/// What is known of the handles of a canonical table is one-to-one.
pub fn known_is_one_to_one()
    ensures { KnownIsOneToOne }
{}

/// What two know of the handles of a table makes one map.
pub fn union_agrees()
    ensures { UnionAgrees }
{}

/// What is known of handles stays true.
pub fn agreement_stays()
    ensures { AgreementStays }
{}

/// A canonical table with vacant or true cache words is sound.
pub fn words_are_sound()
    ensures { WordsAreSound }
{}

/// A history that fits a canonical table, and handles of the table, are sound on it.
pub fn fitting_is_sound()
    ensures { FittingIsSound }
{}

/// The intersection of the ideals of two sets of points is the ideal of their union.
pub fn intersection_is_of_union()
    ensures { IntersectionIsOfUnion }
{}

/// Their sum is the ideal of the intersection of the two sets.
pub fn sum_is_of_intersection()
    ensures { SumIsOfIntersection }
{}

/// The leads of the ideal of points are the leads of the points.
pub fn leads_of_ideal()
    ensures { LeadsOfIdeal }
{}

/// Its reduced bases are those of the points.
pub fn basis_of_ideal()
    ensures { BasisOfIdeal }
{}
