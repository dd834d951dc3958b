//! Worked examples, over the schema and the tables of `specs/Examples.antt`.
ghost use Rattle.std.specs.Prelude.{◌≡◌, pos, negsuc, codes, [], ◌∷◌, map, true, false, Option, Some, None, Ok, Err};
ghost use Rattle.qe_base.specs.declared.value.Value.TheVariants.{Null, Int};
ghost use Rattle.qe_base.specs.declared.query.Like.TheVariants as like;
ghost use Rattle.qe_base.specs.declared.query.OrderEnd.TheVariants as end;
ghost use Rattle.qe_base.specs.declared.query.Quant.TheVariants as quant;
ghost use Rattle.qe_base.specs.declared.query.Filter.TheVariants as filter;
ghost use Rattle.qe_base.specs.declared.query.Test.TheVariants as test;
ghost use Rattle.qe_base.specs.declared.write.Op.TheVariants as op;
ghost use Rattle.qe_base.specs.declared.answer.Answer as answer;
ghost use Rattle.qe_base.specs.declared.answer.Rule.TheVariants as rule;
ghost use Rattle.qe_schema.specs.declared.truth.Truth.TheVariants.{Yes, No, Unknown};
ghost use Rattle.qe_reading.specs.Truth.{truth_of, all_of, any_of};
ghost use Rattle.qe_schema.specs.Tests.{test_of};
ghost use Rattle.qe_reading.specs.Order.{ordered};
ghost use Rattle.qe_reading.specs.Page.{page_of};
ghost use Rattle.qe_reading.specs.Read.{read_of};
ghost use Rattle.qe_reading.specs.Fits.{filter_fits, order_fits, page_fits, pick_fits, read_fits};
ghost use Rattle.qe_reading.specs.Examples.{blog, kept, users, posts, post, not_x, neither, has_x, no_profile, every_b, author_not_y, posts_of_x, by, by_title, by_author, by_posts, two_before, taking, one_a_title, at_id, look_by, whole, everything, table_id, ids, with_ids, with_count, ids_in, numbers, number_shown, id_shown, ids_shown, id_and};

/// What filters say of the users x, without a name, and y, and of their posts.
pub fn filter_examples()
    ensures not_x { map (truth_of blog kept not_x 0) users ≡ No ∷ Unknown ∷ Yes ∷ [] }
    ensures neither { map (truth_of blog kept neither 0) users ≡ No ∷ Unknown ∷ No ∷ [] }
    ensures has_x { map (truth_of blog kept has_x 0) users ≡ Yes ∷ Unknown ∷ No ∷ [] }
    ensures no_profile { map (truth_of blog kept no_profile 0) users ≡ No ∷ Yes ∷ Yes ∷ [] }
    ensures every_b { map (truth_of blog kept every_b 0) users ≡ No ∷ No ∷ Yes ∷ [] }
    ensures author_not_y { map (truth_of blog kept author_not_y 2) posts ≡ Yes ∷ Yes ∷ No ∷ No ∷ No ∷ [] }
    ensures any_of_nothing { map (truth_of blog kept (filter.Any []) 0) users ≡ No ∷ No ∷ No ∷ [] }
    ensures one_of_nothing { test_of (test.OneOf []) Null ≡ No }
{}

/// Posts titled b, a, b, a, c, of which the first two have an author with a name.
pub fn order_examples()
    ensures by_title { ids_in (ordered blog kept 2 (by_title ∷ []) posts) ≡ numbers (2 ∷ 4 ∷ 1 ∷ 3 ∷ 5 ∷ []) }
    ensures nulls_smallest { ids_in (ordered blog kept 2 (by_author false None ∷ []) posts) ≡ numbers (3 ∷ 4 ∷ 5 ∷ 1 ∷ 2 ∷ []) }
    ensures descending { ids_in (ordered blog kept 2 (by_author true None ∷ []) posts) ≡ numbers (1 ∷ 2 ∷ 3 ∷ 4 ∷ 5 ∷ []) }
    ensures nulls_first { ids_in (ordered blog kept 2 (by_author true (Some true) ∷ []) posts) ≡ numbers (3 ∷ 4 ∷ 5 ∷ 1 ∷ 2 ∷ []) }
    ensures nulls_last { ids_in (ordered blog kept 2 (by_author false (Some false) ∷ by_title ∷ []) posts) ≡ numbers (2 ∷ 1 ∷ 4 ∷ 3 ∷ 5 ∷ []) }
    ensures by_posts { ids_in (ordered blog kept 0 (by_posts false ∷ []) users) ≡ numbers (3 ∷ 2 ∷ 1 ∷ []) }
{}

/// Pages of these posts.
pub fn page_examples()
    ensures before_cursor { ids_in (page_of post (two_before 5) (ordered blog kept 2 (by_title ∷ []) posts)) ≡ numbers (1 ∷ 3 ∷ []) }
    ensures no_such_cursor { page_of post (two_before 99) (ordered blog kept 2 (by_title ∷ []) posts) ≡ [] }
    ensures none_taken { page_of post (taking (pos 0)) posts ≡ [] }
    ensures distinct { ids_in (page_of post (one_a_title None None) posts) ≡ numbers (1 ∷ 2 ∷ 5 ∷ []) }
    ensures last_distinct { ids_in (page_of post (one_a_title None (Some (negsuc 0))) posts) ≡ numbers (5 ∷ []) }
    ensures cursor_dropped { page_of post (one_a_title (Some (at_id 3)) None) posts ≡ [] }
{}

/// What operations answer.
pub fn read_examples()
    ensures page { read_of blog kept (op.FindMany (table_id 2) (look_by (by_title ∷ []) (two_before 5)) ids) ≡ Some (Ok (ids_shown (1 ∷ 3 ∷ []))) }
    ensures first { read_of blog kept (op.FindFirst (table_id 2) (look_by [] (taking (negsuc 2))) false ids) ≡ Some (Ok (id_shown 5)) }
    ensures first_of_none { read_of blog kept (op.FindFirst (table_id 2) (look_by [] (taking (pos 0))) true ids) ≡ Some (Err (rule.Absent (table_id 2))) }
    ensures not_there { read_of blog kept (op.FindUnique (table_id 0) (at_id 9) false ids) ≡ Some (Ok answer.Null) }
    ensures many { read_of blog kept (op.FindUnique (table_id 0) (at_id 1) false (with_ids 2)) ≡ Some (Ok (id_and 1 (codes "posts") (ids_shown (1 ∷ 2 ∷ [])))) }
    ensures counts { read_of blog kept (op.FindUnique (table_id 0) (at_id 1) false (with_count 2)) ≡ Some (Ok (id_and 1 (codes "_count") (answer.Object ((codes "posts", answer.Number 2) ∷ [])))) }
    ensures linked { read_of blog kept (op.FindUnique (table_id 3) (at_id 1) false (with_ids 1)) ≡ Some (Ok (id_and 1 (codes "posts") (ids_shown (2 ∷ 4 ∷ [])))) }
    ensures linked_back { read_of blog kept (op.FindUnique (table_id 2) (at_id 2) false (with_ids 4)) ≡ Some (Ok (id_and 2 (codes "categories") (ids_shown (1 ∷ 2 ∷ [])))) }
    ensures optional { read_of blog kept (op.FindUnique (table_id 2) (at_id 3) false (with_ids 2)) ≡ Some (Ok (id_and 3 (codes "author") answer.Null)) }
    ensures dangling { read_of blog kept (op.FindMany (table_id 1) (look_by [] whole) (with_ids 2)) ≡ Some (Err (rule.Dangling (table_id 1) 2)) }
    ensures counted { read_of blog kept (op.Count (table_id 2) posts_of_x) ≡ Some (Ok (answer.Number 2)) }
{}

/// What fits the schema, and near misses.
pub fn fit_examples()
    ensures page { read_fits blog (op.FindMany (table_id 2) (look_by (by_title ∷ []) (two_before 5)) (with_ids 2)) ≡ true }
    ensures linked { pick_fits blog (with_ids 4) 2 ≡ true }
    ensures counted { read_fits blog (op.Count (table_id 2) posts_of_x) ≡ true }
    ensures link_table { read_fits blog (op.FindMany (table_id 4) (look_by [] whole) ids) ≡ false }
    ensures distinct_count { read_fits blog (op.Count (table_id 2) (look_by [] (one_a_title None None))) ≡ false }
    ensures null_name { filter_fits blog (filter.Test 1 test.IsNull) 0 ≡ true }
    ensures null_title { filter_fits blog (filter.Test 1 test.IsNull) 2 ≡ false }
    ensures equals_null { filter_fits blog (filter.Test 1 (test.Equals Null)) 0 ≡ false }
    ensures searched_number { filter_fits blog (filter.Test 0 (test.Like like.Begin (codes "1"))) 0 ≡ false }
    ensures too_great { filter_fits blog (filter.Test 0 (test.Less (Int (pos 2147483648)))) 0 ≡ false }
    ensures not_many { filter_fits blog (filter.Many 3 quant.Some everything) 0 ≡ false }
    ensures not_one { filter_fits blog (filter.One 2 None) 0 ≡ false }
    ensures nulls_of_required { order_fits blog (by [] (end.Column 1) false (Some true)) 2 ≡ false }
    ensures nulls_of_optional { order_fits blog (by [] (end.Column 2) false (Some true)) 2 ≡ true }
    ensures path_of_many { order_fits blog (by (2 ∷ []) (end.Column 0) false None) 0 ≡ false }
    ensures too_many { page_fits blog (taking (pos 2147483648)) 2 ≡ false }
    ensures no_such_field { pick_fits blog (with_ids 5) 2 ≡ false }
    ensures column { pick_fits blog (with_ids 3) 2 ≡ false }
    ensures counted_one { pick_fits blog (with_count 3) 0 ≡ false }
{}
