// The places of names among the fields and the measures of an explore.

ghost use Rattle.std.specs.Prelude.{◌≡◌, ◌≤◌, length, position, true};
ghost use Rattle.lk_val.specs.Texts.{is_same_text};
ghost use Rattle.lk_query.specs.NameOrder.{FieldsAscend, MeasuresAscend, is_before};

use lk_types::{Explore, Field, Measure};
use lk_val::Text;

/// The fields and measures of an explore, and whether they stand by their names, as a resolved explore's do: a name among
/// so many is then found in a few steps, and else by a look at each.
#[derive(Drop)]
pub(crate) struct FieldNames<'a> {
    pub(crate) x: &'a Explore,
    fields_ascend: bool,
    measures_ascend: bool,
    ghost fields: { fields_ascend ≡ true → FieldsAscend x.now.fields },
    ghost measures: { measures_ascend ≡ true → MeasuresAscend x.now.measures },
}

impl<'a> FieldNames<'a> {
    ghost use Rattle.std.specs.Prelude.{◌≡◌, position};
    ghost use Rattle.lk_query.specs.Names.{field_named, measure_named};

    /// Those of an explore.
    pub(crate) fn of(x: &'a Explore) -> FieldNames<'a>
        ensures { result.x.now ≡ x.now }
    {
        FieldNames {
            x,
            fields_ascend: fields_ascend(x.fields.as_slice()),
            measures_ascend: measures_ascend(x.measures.as_slice()),
        }
    }

    /// The place of the first field of a name.
    pub(crate) fn field_place(&self, name: &Text) -> Option<usize>
        ensures { result ≡ field_named self.now.x.now name.now }
    {
        let fields = self.x.fields.as_slice();
        if self.fields_ascend {
            ascending_field_place(fields, name)
        } else {
            fields.iter().position(|field| *name == field.name)
        }
    }

    /// The place of the first measure of a name.
    pub(crate) fn measure_place(&self, name: &Text) -> Option<usize>
        ensures { result ≡ measure_named self.now.x.now name.now }
    {
        let measures = self.x.measures.as_slice();
        if self.measures_ascend {
            ascending_measure_place(measures, name)
        } else {
            measures.iter().position(|measure| *name == measure.name)
        }
    }
}

fn fields_ascend(fields: &[Field]) -> bool
    ensures { result ≡ true → FieldsAscend fields.now }
{
    for place in 1..fields.len() {
        if is_before(&fields[place].name, &fields[place - 1].name) {
            return false;
        }
    }
    true
}

fn measures_ascend(measures: &[Measure]) -> bool
    ensures { result ≡ true → MeasuresAscend measures.now }
{
    for place in 1..measures.len() {
        if is_before(&measures[place].name, &measures[place - 1].name) {
            return false;
        }
    }
    true
}

fn ascending_field_place(fields: &[Field], name: &Text) -> Option<usize>
    requires ascending { FieldsAscend fields.now }
    ensures { result ≡ position (λ f. is_same_text name.now f.name) fields.now }
{
    let place = fields.partition_point(
        |field: &Field| -> bool
            ensures { result ≡ is_before field.now.name name.entry.now }
        { is_before(&field.name, name) },
    );
    match fields.get(place) {
        Some(field) if *name == field.name => Some(place),
        _ => None,
    }
}

fn ascending_measure_place(measures: &[Measure], name: &Text) -> Option<usize>
    requires ascending { MeasuresAscend measures.now }
    ensures { result ≡ position (λ m. is_same_text name.now m.name) measures.now }
{
    let place = measures.partition_point(
        |measure: &Measure| -> bool
            ensures { result ≡ is_before measure.now.name name.entry.now }
        { is_before(&measure.name, name) },
    );
    match measures.get(place) {
        Some(measure) if *name == measure.name => Some(place),
        _ => None,
    }
}

fn is_before(name: &Text, other: &Text) -> bool
    ensures { result ≡ is_before name.now other.now }
{
    name.as_str() < other.as_str()
}
