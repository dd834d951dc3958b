//! What puts keep: tables that fit a schema go on fitting it.
ghost use Rattle.qe_base.specs.Schemas.{Schema};
ghost use Rattle.qe_row_laws.specs.Orders.{ValuesAreOrdered, PairsAreOrdered, SameValuesAreEqual, SamePairsAreEqual};
ghost use Rattle.qe_row_laws.specs.Pairs.{WithPairAscends, WithoutPairAscends, NewPairsFit, FewerPairsFit};
ghost use Rattle.qe_row_laws.specs.Puts.{PutsFit, NewRowsFit};

/// Ids are in a total order, and only equal ones are the same.
#[tactic(auto, using(crate::proofs::Orders::values_cmp_total, qe_schema::proofs::Equal::same_values))]
pub fn ids_are_ordered()
    ensures ordered { ValuesAreOrdered }
    ensures same { SameValuesAreEqual }
{}

/// Pairs are in a total order, and only equal ones are the same.
#[tactic(auto, using(crate::proofs::Orders::pair_cmp_total, crate::proofs::Orders::same_pair))]
pub fn pairs_are_ordered()
    ensures ordered { PairsAreOrdered }
    ensures same { SamePairsAreEqual }
{}

/// A row that fits its model, put into its table or beside some of its rows, leaves tables that fit.
#[tactic(auto, using(crate::proofs::Puts::puts_fit, crate::proofs::Puts::new_rows_fit))]
pub fn puts_keep_the_tables_fit()
    ensures beside { (schema : Schema) → PutsFit schema }
    ensures new { (schema : Schema) → NewRowsFit schema }
{}

/// Pairs stay in order when one comes or goes.
#[tactic(auto, using(crate::proofs::PairOrder::with_ascends, crate::proofs::PairOrder::without_ascends))]
pub fn pairs_stay_in_order()
    ensures more { WithPairAscends }
    ensures fewer { WithoutPairAscends }
{}

/// A pair that fits its link table, and one that goes, leave tables that fit.
#[tactic(auto, using(crate::proofs::PairOrder::new_pairs_fit, crate::proofs::PairOrder::fewer_pairs_fit))]
pub fn pairs_keep_the_tables_fit()
    ensures more { (schema : Schema) → NewPairsFit schema }
    ensures fewer { (schema : Schema) → FewerPairsFit schema }
{}
