// A case: a verb, fields and the outcome that is expected.
ghost use Rattle.std.specs.Prelude.{◌≡◌, [], vec_items};
ghost use Rattle.std.specs.Option.{option_map};
ghost use Rattle.cases.specs.Lines.{parts_of, opened, case_with_fields, case_in, value_of, field_in, bytes_at, number_at};
ghost use Rattle.cases.specs.Packed.{unpacked};
ghost use Rattle.cases.specs.Stops.{Gives};

use crate::packed::{Packed, numbers};
use crate::stop::Stop;
use crate::text::{bytes, number};
use std::alloc::Global;

#[derive(Clone, Copy)]
pub struct Case<'a> {
    pub verb: &'a str,
    fields: &'a str,
    pub expect: &'a str,
}

// The value of a field, where it has this name.
fn value_of<'a>(name: &str, field: &'a str) -> Option<&'a str>
    ensures { option_map (λ x. x.now) result ≡ value_of name.now field.now }
{
    let (key, value) = field.split_once('=')?;
    (key == name).then_some(value)
}

impl<'a> Case<'a> {
    // Two spaces may stand before the verb, and it may have no fields.
    pub fn read(line: &'a str) -> Result<Case<'a>, Stop>
        ensures { Gives parts_of (case_in line.now) result }
    {
        let line = line.strip_prefix("  ").unwrap_or(line);
        let (call, expect) = line.split_once(" expect=").ok_or(Stop::Unreadable)?;
        let (verb, fields) = call.split_once(' ').unwrap_or((call, ""));
        Ok(Case {
            verb,
            fields,
            expect,
        })
    }

    // A verb and fields; nothing is expected.
    pub fn open(line: &'a str) -> Result<Case<'a>, Stop>
        ensures { Gives parts_of (opened line.now []) result }
    {
        let (verb, fields) = line.split_once(' ').ok_or(Stop::Unreadable)?;
        Ok(Case {
            verb,
            fields,
            expect: "",
        })
    }

    // The verb begins the line and has fields.
    pub fn with_fields(line: &'a str) -> Result<Case<'a>, Stop>
        ensures { Gives parts_of (case_with_fields line.now) result }
    {
        let (call, expect) = line.split_once(" expect=").ok_or(Stop::Unreadable)?;
        let case = Case::open(call)?;
        Ok(Case { expect, ..case })
    }

    // The text of the first field with this name.
    pub fn field(&self, name: &str) -> Result<&'a [u8], Stop>
        ensures { Gives (λ x. x.now) (field_in name.now self.now.fields.now) result }
    {
        let value = self
            .fields
            .split(' ')
            .find_map(|field| value_of(name, field));
        Ok(value.ok_or(Stop::Unreadable)?.as_bytes())
    }

    // The bytes that a field stands for.
    pub fn bytes(&self, heap: Global, name: &str) -> Result<Vec<u8>, Stop>
        ensures { Gives vec_items (bytes_at name.now self.now.fields.now) result }
    {
        bytes(heap, self.field(name)?)
    }

    // The number that a field stands for.
    pub fn number(&self, name: &str) -> Result<usize, Stop>
        ensures { Gives (λ n. n) (number_at name.now self.now.fields.now) result }
    {
        number(self.field(name)?)
    }

    pub(crate) fn numbers<T: Packed>(&self, heap: Global, name: &str) -> Result<Vec<T>, Stop>
        ensures { Gives vec_items (option_map (unpacked T.WIDTH T.read) (bytes_at name.now self.now.fields.now)) result }
    {
        let bytes = self.bytes(heap, name)?;
        numbers(heap, bytes.as_slice())
    }
}
