//! Links, and the tables that keep them.
ghost use Rattle.std.specs.Prelude.{◌≡◌, ◌&&◌, IfOk, map, filter, codes, bytes_eq, [], ◌∷◌, false};
ghost use Rattle.std.specs.List.{enumerate_from};
ghost use Rattle.std.specs.Ordering.{nat_cmp, is_lt};
ghost use Rattle.std.specs.Cmp.Lexicographic.{slice_cmp};
ghost use Rattle.psl_rules.specs.Parts.{ModelField};
ghost use Rattle.psl_rules.specs.Relations.{is_linked};
ghost use Rattle.qe_base.specs.declared.schema.Field.TheVariants as field;
ghost use Rattle.psl_sound.specs.SchemaOf as spec;

use crate::numbers::Models;
use psl_columns::{Enums, kind};
use psl_keys::id_names;
use psl_parts::{Field as ModelField, Types, fields_named};
use psl_relations::{End, Pair, TreeIndex, ends, link_name, pairs};
use psl_text::Block;
use qe_base::{Column, Field, Fill, Key, Kind, Link, Table};
use qe_text::{Items, Memory, Text};
use std::alloc::Global;
use std::cmp::Ordering;

/// Whether the one text comes before the other, by bytes.
fn is_before(one: &str, other: &str) -> bool
    ensures { result ≡ is_lt (slice_cmp nat_cmp one.now other.now) }
{
    match one.cmp(other) {
        Ordering::Less => true,
        Ordering::Equal => false,
        Ordering::Greater => false,
    }
}

/// Whether an end comes before the other by the name of its model, or in one model by its own.
fn is_side_a(end: &End, other: &End) -> bool
    ensures { result ≡ spec.is_side_a end.now other.now }
{
    let model = end.model().name.text.as_str();
    let other_model = other.model().name.text.as_str();
    let name = end.field().name().text.as_str();
    let other_name = other.field().name().text.as_str();
    is_before(model, other_model) || (model == other_model && is_before(name, other_name))
}

/// The end that is side A of a link.
pub fn side_a<'e, 'a>(pair: &Pair<'e, 'a>) -> &'e End<'a>
    ensures { result.now ≡ spec.side_a pair.now }
{
    if is_side_a(pair.first(), pair.second()) {
        pair.first()
    } else {
        pair.second()
    }
}

/// The end that is side B of a link.
pub fn side_b<'e, 'a>(pair: &Pair<'e, 'a>) -> &'e End<'a>
    ensures { result.now ≡ spec.side_b pair.now }
{
    if is_side_a(pair.first(), pair.second()) {
        pair.second()
    } else {
        pair.first()
    }
}

/// The pairs of lists among these.
pub fn linked<'p, 'e, 'a>(
    alloc: Global,
    pairs: &'p [Pair<'e, 'a>],
) -> Result<Vec<&'p Pair<'e, 'a>>, Memory>
    ensures { IfOk result (λ linked. map (λ pair. pair.now) linked.items ≡ filter is_linked pairs.now) }
{
    let mut linked = Vec::new(alloc);
    for pair in pairs {
        if !pair.is_linked() {
            continue;
        }
        linked.push(pair)?;
    }
    Ok(linked)
}

/// The link of a number, from 0, between the ends of a pair.
fn link_between(alloc: Global, models: &Models, number: usize, pair: &Pair) -> Result<Link, Memory>
    ensures { IfOk result (λ link. link ≡ spec.link_between models.now (number, pair.now)) }
{
    let a = side_a(pair);
    let b = side_b(pair);
    Ok(Link {
        table: models.link(number)?,
        a: models.number(&a.model().name.text)?,
        a_field: a.field().name().text.copy(alloc)?,
        b: models.number(&b.model().name.text)?,
        b_field: b.field().name().text.copy(alloc)?,
    })
}

/// The links between the ends of these pairs.
fn links_between(alloc: Global, models: &Models, linked: &[&Pair]) -> Result<Items<Link>, Memory>
    ensures { IfOk result (λ links. links ≡ map (spec.link_between models.now) (enumerate_from 0 (map (λ pair. pair.now) linked.now))) }
{
    let mut links = Items::new(alloc);
    for (number, pair) in linked.iter().enumerate() {
        links.push(link_between(alloc, models, number, pair)?)?;
    }
    Ok(links)
}

/// The links of a tree, in the order of their first fields.
pub fn links(alloc: Global, types: &Types) -> Result<Items<Link>, Memory>
    ensures { IfOk result (λ links. links ≡ spec.links_of types.now) }
{
    let models = Models::of(alloc, types)?;
    let tree = TreeIndex::of(alloc, &*types)?;
    let ends = ends(alloc, &tree)?;
    let pairs = pairs(alloc, ends.as_slice())?;
    let linked = linked(alloc, pairs.as_slice())?;
    links_between(alloc, &models, linked.as_slice())
}

/// The kind of the first of these fields, and text where there is none.
fn first_kind(enums: &Enums, fields: &[ModelField]) -> Result<Kind, Memory>
    ensures { IfOk result (λ kind. kind ≡ spec.first_kind (map (λ field. spec.kind_of enums.now field.type.text) fields.now)) }
{
    match fields {
        [] => Ok(Kind::Text),
        [first, ..] => kind(enums, first.kind().text.as_str()),
    }
}

/// The kind of a model's id, where that is one column.
fn id_kind(alloc: Global, enums: &Enums, model: &Block) -> Result<Kind, Memory>
    ensures { IfOk result (λ kind. kind ≡ spec.id_kind enums.now model.now) }
{
    let names = id_names(alloc, model)?;
    let fields = fields_named(alloc, model, names.as_slice())?;
    first_kind(enums, fields.as_slice())
}

fn side_column(alloc: Global, name: &str, kind: Kind) -> Result<Column, Memory>
    ensures { IfOk result (λ column. column ≡ spec.side_column name.now kind) }
{
    Ok(Column {
        name: Text::from_str(alloc, name)?,
        stored: Text::from_str(alloc, name)?,
        kind,
        optional: false,
        fill: Fill::Absent,
        updated: false,
    })
}

/// The columns of a link table: the ids of its two sides.
fn side_columns(alloc: Global, enums: &Enums, pair: &Pair) -> Result<Items<Column>, Memory>
    ensures { IfOk result (λ columns. columns ≡ spec.side_column (codes "A") (spec.id_kind enums.now (spec.side_a pair.now).model) ∷ spec.side_column (codes "B") (spec.id_kind enums.now (spec.side_b pair.now).model) ∷ []) }
{
    let a = id_kind(alloc, enums, side_a(pair).model())?;
    let b = id_kind(alloc, enums, side_b(pair).model())?;
    let mut columns = Items::new(alloc);
    columns.push(side_column(alloc, "A", a)?)?;
    columns.push(side_column(alloc, "B", b)?)?;
    Ok(columns)
}

/// The key of a link table: both its columns.
fn link_keys(alloc: Global) -> Result<Items<Key>, Memory>
    ensures { IfOk result (λ keys. keys ≡ record { name = codes "A_B"; columns = 0 ∷ 1 ∷ [] } ∷ []) }
{
    let mut columns = Items::new(alloc);
    columns.push(0)?;
    columns.push(1)?;
    let mut keys = Items::new(alloc);
    let name = Text::from_str(alloc, "A_B")?;
    keys.push(Key { name, columns })?;
    Ok(keys)
}

/// The fields of a link table: its columns.
fn link_fields(alloc: Global) -> Result<Items<(Text, Field)>, Memory>
    ensures { IfOk result (λ fields. fields ≡ (codes "A", field.Scalar 0) ∷ (codes "B", field.Scalar 1) ∷ []) }
{
    let mut fields = Items::new(alloc);
    fields.push((Text::from_str(alloc, "A")?, Field::Scalar(0)))?;
    fields.push((Text::from_str(alloc, "B")?, Field::Scalar(1)))?;
    Ok(fields)
}

/// The table of pairs of ids that links a pair.
pub fn link_table(alloc: Global, enums: &Enums, pair: &Pair) -> Result<Table, Memory>
    ensures { IfOk result (λ table. table ≡ spec.link_table enums.now pair.now) }
{
    let name = link_name(alloc, pair)?;
    Ok(Table {
        stored: name.copy(alloc)?,
        name,
        link: true,
        columns: side_columns(alloc, enums, pair)?,
        keys: link_keys(alloc)?,
        fields: link_fields(alloc)?,
        indexes: Items::new(alloc),
    })
}
