//! What the fields of models stand for.
ghost use Rattle.std.specs.Prelude.{◌≡◌, IfOk, map};
ghost use Rattle.std.specs.Option.{option_or};
ghost use Rattle.psl_sound.specs.SchemaOf as spec;
ghost use Rattle.psl_values.specs.Shown.{shown_field};

use crate::numbered::Numbered;
use psl_columns::{as_number, column_names, is_column, number_among};
use psl_parts::Field as ModelField;
use psl_relations::{End, ModelIndex};
use psl_text::Entry;
use qe_base::{Field, RelId};
use qe_text::{Items, Memory, Text};
use std::alloc::Global;

impl<'s, 'a> Numbered<'s, 'a> {
    fn holder_field(&self, end: &End<'a>) -> Result<Option<Field>, Memory>
        ensures { IfOk result (λ field. field ≡ spec.holder_field self.now end.now) }
    {
        match self.holder_place(end) {
            Some(at) => Ok(Some(Field::Holder(RelId(as_number(at)?)))),
            None => Ok(None),
        }
    }

    fn target_field(&self, end: &End<'a>) -> Result<Option<Field>, Memory>
        ensures { IfOk result (λ field. field ≡ spec.target_field self.now end.now) }
    {
        match self.target_place(end) {
            Some(at) => Ok(Some(Field::Target(RelId(as_number(at)?)))),
            None => Ok(None),
        }
    }

    fn side_a_field(&self, end: &End<'a>) -> Result<Option<Field>, Memory>
        ensures { IfOk result (λ field. field ≡ spec.side_a_field self.now end.now) }
    {
        match self.side_a_place(end) {
            Some(at) => Ok(Some(Field::SideA(self.link(at)?))),
            None => Ok(None),
        }
    }

    fn side_b_field(&self, end: &End<'a>) -> Result<Option<Field>, Memory>
        ensures { IfOk result (λ field. field ≡ spec.side_b_field self.now end.now) }
    {
        match self.side_b_place(end) {
            Some(at) => Ok(Some(Field::SideB(self.link(at)?))),
            None => Ok(None),
        }
    }

    /// The side of a link that an end is.
    fn link_side(&self, end: &End<'a>) -> Result<Option<Field>, Memory>
        ensures { IfOk result (λ field. field ≡ option_or (spec.side_a_field self.now end.now) (spec.side_b_field self.now end.now)) }
    {
        match self.side_a_field(end)? {
            Some(field) => Ok(Some(field)),
            None => self.side_b_field(end),
        }
    }

    /// What an end is that holds no foreign key.
    fn other_side(&self, end: &End<'a>) -> Result<Option<Field>, Memory>
        ensures { IfOk result (λ field. field ≡ option_or (spec.target_field self.now end.now) (option_or (spec.side_a_field self.now end.now) (spec.side_b_field self.now end.now))) }
    {
        match self.target_field(end)? {
            Some(field) => Ok(Some(field)),
            None => self.link_side(end),
        }
    }

    /// What an end is, and a column where it is nothing.
    fn relation_field(&self, end: &End<'a>) -> Result<Field, Memory>
        ensures { IfOk result (λ field. field ≡ spec.relation_field self.now end.now) }
    {
        match self.holder_field(end)? {
            Some(field) => Ok(field),
            None => match self.other_side(end)? {
                Some(field) => Ok(field),
                None => Ok(Field::Scalar(0)),
            },
        }
    }

    /// What a field of a model with these columns stands for.
    fn field_in(
        &self,
        columns: &[&str],
        model: &'a ModelIndex<'a>,
        field: ModelField<'a>,
    ) -> Result<Field, Memory>
        requires { map (λ name. name.now) columns.now ≡ spec.column_names self.now model.now }
        ensures { IfOk result (λ part. part ≡ spec.field_in self.now model.now field.entry) }
    {
        if is_column(self.types(), field.kind()) {
            let number = number_among(columns, field.name().text.as_str())?;
            Ok(Field::Scalar(number))
        } else {
            self.relation_field(&self.end(model, field))
        }
    }

    /// A field of a model with these columns, by its name, and what it stands for.
    #[tactic(auto, using(crate::proofs::Shown::shown_is))]
    fn shown_field(
        &self,
        alloc: Global,
        columns: &[&str],
        model: &'a ModelIndex<'a>,
        field: ModelField<'a>,
    ) -> Result<(Text, Field), Memory>
        requires { map (λ name. name.now) columns.now ≡ spec.column_names self.now model.now }
        ensures { IfOk result (λ shown. shown ≡ shown_field self.now model.now field.entry) }
    {
        let name = field.name().text.copy(alloc)?;
        let stands_for = self.field_in(columns, model, field)?;
        Ok((name, stands_for))
    }

    /// The fields of a model, in text order.
    pub fn fields(
        &self,
        alloc: Global,
        model: &'a ModelIndex<'a>,
    ) -> Result<Items<(Text, Field)>, Memory>
        ensures { IfOk result (λ fields. fields ≡ spec.fields_of self.now model.now) }
    {
        let block = model.model();
        let columns = column_names(alloc, self.types(), block)?;
        let mut fields = Items::new(alloc);
        for entry in block.entries.as_slice() {
            if let Entry::Field {
                name,
                kind,
                mark,
                attributes,
                ..
            } = entry
            {
                let field = ModelField {
                    name,
                    kind,
                    mark: *mark,
                    attributes: attributes.as_slice(),
                };
                fields.push(self.shown_field(alloc, columns.as_slice(), model, field)?)?;
            }
        }
        Ok(fields)
    }
}
