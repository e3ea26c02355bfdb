//! A line of console input, read as a command. The line's ending byte is already taken off.
#![tactic(auto)]

mod field;
mod sheet;

ghost use Rattle.std.specs.Prelude.{◌<◌, ◌∷◌, length};
ghost use Rattle.command.specs.Grammar.{Form};
ghost use Rattle.command.specs.Reading.{Reads, Spells};

use field::{field, last_field, model_field};
use lines::LONGEST;
pub use sheet::Sheet;
use vocabulary::model_kind::ModelKind;

/// No line has more numbers, since each takes two bytes at least.
pub const MOST_NUMBERS: usize = LONGEST / 2;

/// What a line asks for.
#[derive(Clone, Copy, Debug, PartialEq, Eq)]
pub enum Command {
    Network { n: u32, model: ModelKind, t: u32 },
    Link(u32, u32),
    Sheet(Sheet),
}

/// What `N` is followed by: a number, a model and the model's parameter.
fn network_of(fields: &[u8]) -> Option<Command>
    ensures { Spells (λ c. Form c (78 ∷ fields.now)) result }
{
    let (n, rest) = field(fields)?;
    let (model, rest) = model_field(rest)?;
    let t = last_field(rest)?;
    Some(Command::Network { n, model, t })
}

/// What `L` is followed by: two numbers.
fn link_of(fields: &[u8]) -> Option<Command>
    ensures { Spells (λ c. Form c (76 ∷ fields.now)) result }
{
    let (a, rest) = field(fields)?;
    let b = last_field(rest)?;
    Some(Command::Link(a, b))
}

/// What `K` is followed by: any number of numbers, each of one byte.
fn sheet_of(fields: &[u8]) -> Option<Command>
    requires { length fields.now < 1000 }
    ensures { Spells (λ c. Form c (75 ∷ fields.now)) result }
{
    let mut sheet = Sheet::new();
    let mut rest = fields;
    while !rest.is_empty() {
        let (number, after) = field(rest)?;
        sheet.push(u8::try_from(number).ok()?);
        rest = after;
    }
    Some(Command::Sheet(sheet))
}

/// The command that a line spells, if it spells one.
pub fn parse(line: &[u8]) -> Option<Command>
    ensures { Reads line.now result }
{
    if line.len() > LONGEST {
        return None;
    }
    let (letter, fields) = line.split_first()?;
    match *letter {
        b'N' => network_of(fields),
        b'L' => link_of(fields),
        b'K' => sheet_of(fields),
        _ => None,
    }
}
