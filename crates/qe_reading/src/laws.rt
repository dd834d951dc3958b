//! What holds of the definitions.
ghost use Rattle.std.specs.Prelude.{◌≡◌, ℕ, ℤ, nat_abs, length, ◌≤◌, Some, List, [], ◌∷◌, map, Bool, true, if◌then◌else◌};
ghost use Rattle.std.specs.Cmp.{IsTotalOrder};
ghost use Rattle.std.specs.List.{list_any, AllByRecursion};
ghost use Rattle.std.specs.List.Sorted.{IsPermutation, IsSorted, IsStable, IsStrictlySortedBy};
ghost use Rattle.qe_base.specs.declared.value.RelId.{RelId};
ghost use Rattle.qe_base.specs.declared.value.Row.{Row};
ghost use Rattle.qe_base.specs.declared.value.TableId.{TableId};
ghost use Rattle.qe_base.specs.declared.schema.Field.TheVariants.{Holder, Target, SideA, SideB};
ghost use Rattle.qe_base.specs.declared.schema.Table.{Table};
ghost use Rattle.qe_base.specs.declared.query.Filter.{Filter};
ghost use Rattle.qe_base.specs.declared.query.Filter.TheVariants as filter;
ghost use Rattle.qe_base.specs.declared.query.Quant.TheVariants as quant;
ghost use Rattle.qe_base.specs.declared.query.OrderBy.{OrderBy};
ghost use Rattle.qe_base.specs.declared.query.Look.{Look};
ghost use Rattle.qe_base.specs.declared.query.Page.{Page};
ghost use Rattle.qe_base.specs.declared.write.Op.{Op};
ghost use Rattle.qe_base.specs.Schemas.{Schema};
ghost use Rattle.qe_schema.specs.Fits.{Ascending};
ghost use Rattle.qe_schema.specs.Tables.{Tables, table_at};
ghost use Rattle.qe_schema.specs.declared.truth.Truth.{Truth as Said};
ghost use Rattle.qe_schema.specs.declared.truth.Truth.TheVariants.{Yes, No, Unknown};
ghost use Rattle.qe_reading.specs.Part.{IsPart};
ghost use Rattle.qe_reading.specs.Related.{is_related, related, other_table};
ghost use Rattle.qe_reading.specs.Truth.{truth_of, all_of, any_of, opposite, is_no, is_unknown};
ghost use Rattle.qe_schema.specs.Tests.{is_yes};
ghost use Rattle.qe_reading.specs.Order.{rows_cmp, ordered};
ghost use Rattle.qe_reading.specs.Page.{page_of, AreDistinct};
ghost use Rattle.qe_reading.specs.Look.{looked_up, whole_look};
ghost use Rattle.qe_reading.specs.Read.{read_of};

/// All of some parts is the worst of them, No before Unknown before Yes, and any is its mirror image.
#[tactic(auto, using(crate::proofs::FilterLaws::all_by_worst, crate::proofs::FilterLaws::any_by_all))]
pub fn truths()
    ensures all { (parts : List Said) → all_of parts ≡ (if list_any is_no parts then No else (if list_any is_unknown parts then Unknown else Yes)) }
    ensures any { (parts : List Said) → any_of parts ≡ opposite (all_of (map opposite parts)) }
{}

/// Filters by their parts, over every schema and all tables.
#[tactic(auto, using(crate::proofs::FilterLaws::says_all, crate::proofs::FilterLaws::says_any))]
pub fn filters()
    ensures all { (schema : Schema) (tables : Tables) (parts : List Filter) (table : ℕ) (row : Row) → truth_of schema tables (filter.All parts) table row ≡ all_of (map (λ part. truth_of schema tables part table row) parts) }
    ensures any { (schema : Schema) (tables : Tables) (parts : List Filter) (table : ℕ) (row : Row) → truth_of schema tables (filter.Any parts) table row ≡ any_of (map (λ part. truth_of schema tables part table row) parts) }
    ensures not { (schema : Schema) (tables : Tables) (part : Filter) (table : ℕ) (row : Row) → truth_of schema tables (filter.Not part) table row ≡ opposite (truth_of schema tables part table row) }
    ensures not_twice { (schema : Schema) (tables : Tables) (part : Filter) (table : ℕ) (row : Row) → truth_of schema tables (filter.Not (filter.Not part)) table row ≡ truth_of schema tables part table row }
    ensures every_of_none { (schema : Schema) (tables : Tables) (field : ℕ) (inner : Filter) (table : ℕ) (row : Row) → related schema tables table field row ≡ [] → truth_of schema tables (filter.Many field quant.Every inner) table row ≡ Yes }
    ensures none_is_not_some { (schema : Schema) (tables : Tables) (field : ℕ) (inner : Filter) (table : ℕ) (row : Row) → truth_of schema tables (filter.Many field quant.None inner) table row ≡ opposite (truth_of schema tables (filter.Many field quant.Some inner) table row) }
{}

/// Related rows are rows of the other table, in its order, and related from both sides.
pub fn relations()
    ensures part { (schema : Schema) (tables : Tables) (table number : ℕ) (row : Row) → IsPart (related schema tables table number row) (tables.rows (other_table schema table number)) }
    ensures reference { (schema : Schema) (tables : Tables) (number : RelId) (child parent : Row) → is_related schema tables (Holder number) child parent ≡ is_related schema tables (Target number) parent child }
    ensures link { (schema : Schema) (tables : Tables) (table : TableId) (one other : Row) → is_related schema tables (SideA table) one other ≡ is_related schema tables (SideB table) other one }
{}

/// The order of rows is a total one. The ordered list has the same rows, is in the order, and is the
/// only such list that leaves rows that tie as they were. Of rows of one table no two tie.
#[tactic(auto, using(crate::proofs::OrderLaws::rows_total, crate::proofs::OrderLaws::ordered_rows, crate::proofs::OrderLaws::ordered_sorted, crate::proofs::OrderLaws::ordered_stable, crate::proofs::OrderLaws::ordered_strict))]
pub fn orders()
    ensures total { (schema : Schema) (tables : Tables) (table : ℕ) (orders : List OrderBy) → IsTotalOrder (rows_cmp schema tables table orders) }
    ensures same_rows { (schema : Schema) (tables : Tables) (table : ℕ) (orders : List OrderBy) (rows : List Row) → IsPermutation rows (ordered schema tables table orders rows) }
    ensures sorted { (schema : Schema) (tables : Tables) (table : ℕ) (orders : List OrderBy) (rows : List Row) → IsSorted (rows_cmp schema tables table orders) (ordered schema tables table orders rows) }
    ensures stable { (schema : Schema) (tables : Tables) (table : ℕ) (orders : List OrderBy) (rows : List Row) → IsStable (rows_cmp schema tables table orders) rows (ordered schema tables table orders rows) }
    ensures only { (schema : Schema) (tables : Tables) (table : ℕ) (orders : List OrderBy) (rows found : List Row) → IsSorted (rows_cmp schema tables table orders) found → IsStable (rows_cmp schema tables table orders) rows found → found ≡ ordered schema tables table orders rows }
    ensures strict { (schema : Schema) (tables : Tables) (table : ℕ) (orders : List OrderBy) (rows : List Row) → Ascending (table_at schema table) rows → IsStrictlySortedBy (rows_cmp schema tables table orders) (ordered schema tables table orders rows) }
{}

/// A page is a part of its list, in the same order, no longer than what is taken, and without repeats.
/// What is looked up matches, and a look that asks for nothing has all rows in the order of their ids.
#[tactic(auto, using(crate::proofs::PageLaws::page_part, crate::proofs::PageLaws::looked_up_matches))]
pub fn pages()
    ensures part { (table : Table) (page : Page) (rows : List Row) → IsPart (page_of table page rows) rows }
    ensures most { (table : Table) (page : Page) (count : ℤ) (rows : List Row) → page.take ≡ Some count → length (page_of table page rows) ≤ nat_abs count }
    ensures distinct { (table : Table) (page : Page) (column : ℕ) (columns : List ℕ) (rows : List Row) → page.distinct ≡ column ∷ columns → AreDistinct (column ∷ columns) (page_of table page rows) }
    ensures matches { (schema : Schema) (tables : Tables) (table : ℕ) (look : Look) (rows : List Row) → AllByRecursion (λ row. is_yes (truth_of schema tables look.filter table row) ≡ true) (looked_up schema tables table look rows) }
    ensures whole { (schema : Schema) (tables : Tables) (table : ℕ) (rows : List Row) → Ascending (table_at schema table) rows → looked_up schema tables table whole_look rows ≡ rows }
{}

/// What is read is the same on tables that have the same rows and pairs.
#[tactic(auto, using(crate::proofs::Agree::same_read))]
pub fn reads()
    ensures { (schema : Schema) (a b : Tables) → ((table : ℕ) → a.rows table ≡ b.rows table) → ((table : ℕ) → a.pairs table ≡ b.pairs table) → (op : Op) → read_of schema a op ≡ read_of schema b op }
{}
