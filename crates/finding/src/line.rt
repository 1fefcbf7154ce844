// The listing's line of a finding: docs/RULES.md, "The listing". What `{}` writes of each type is its `output`, which speaks of a write that succeeds,
// and of a hole without width or precision.
ghost use Rattle.std.specs.Prelude.{Some, codes};
ghost use Rattle.std.specs.Option.{option_map_or};
ghost use Rattle.std.specs.Fmt.{DisplaysOnOk};
ghost use Rattle.finding.specs.Listing.{finding_line, identifier_text, mismatch_line, spot_text};

use crate::Finding;
use std::fmt;

// A value, or `-` where there is none.
#[derive(Drop)]
struct Held<T>(Option<T>);

impl<T: fmt::Display> fmt::Display for Held<T> {
    ghost output = { λ h. option_map_or T.output h.0 (Some (codes "-")) };

    fn fmt<W: fmt::Write>(&self, f: &mut fmt::Formatter<W>) -> fmt::Result {
        match &self.0 {
            Some(value) => write!(f, "{value}"),
            None => f.write_str("-"),
        }
    }
}

// A segment's identifier of two or three letters, the first the highest byte.
#[derive(Clone, Copy)]
struct Identifier(u64);

impl fmt::Display for Identifier {
    ghost output = { λ i. Some (identifier_text i.0) };

    fn fmt<W: fmt::Write>(&self, f: &mut fmt::Formatter<W>) -> fmt::Result {
        let [_, _, _, _, _, first, second, third] = self.0.to_be_bytes();
        let second = char::from(second);
        let third = char::from(third);
        if first == 0 {
            return write!(f, "{second}{third}");
        }
        let first = char::from(first);
        write!(f, "{first}{second}{third}")
    }
}

// Where a text comes from, a cell or a field of the envelope, and where it goes.
#[derive(Clone, Copy)]
struct Spot([u64; 9]);

impl fmt::Display for Spot {
    ghost output = { λ s. Some (spot_text s.0) };

    fn fmt<W: fmt::Write>(&self, f: &mut fmt::Formatter<W>) -> fmt::Result {
        let [origin, from, row, column, name, element, component, _, _] = self.0;
        let name = Identifier(name);
        let component = Held(component.checked_sub(1));
        if origin == 0 {
            return write!(f, "C {from} {row} {column} {name} {element} {component}");
        }
        write!(f, "E {from} {name} {element} {component}")
    }
}

// The line of a mismatched reference, in two writes: one of them would be too long to be proved at once.
fn mismatch<W: fmt::Write>(f: &mut fmt::Formatter<W>, values: [u64; 9]) -> fmt::Result
    ensures { DisplaysOnOk W.write_str_gives f.old result (Some (mismatch_line values)) f.new }
{
    let [a, b, c, d, e, g, h, _, _] = values;
    write!(f, "MR {a} {b} {c} {} ", d.cast_signed())?;
    write!(f, "{e} {g} {}", h.cast_signed())
}

// The line by the finding's kind, a number since C reads it (docs/RULES.md, "The listing").
impl fmt::Display for Finding {
    ghost output = { λ f. Some (finding_line f) };

    fn fmt<W: fmt::Write>(&self, f: &mut fmt::Formatter<W>) -> fmt::Result {
        let spot = Spot(self.values);
        let [a, b, c, d, e, _, _, i, j] = self.values;
        match self.kind {
            0 => write!(f, "DR {a} {b} {} {d}", c.cast_signed()),
            1 => {
                let parent = Held((d != 0).then_some(e.cast_signed()));
                write!(f, "MP {a} {b} {c} {parent}")
            }
            2 => mismatch(f, self.values),
            3 => write!(f, "OO {a} {b} {c} {} {e}", d.cast_signed()),
            4 => write!(f, "DV {spot} {i} {j}"),
            _ => write!(f, "NW {spot} {i}"),
        }
    }
}
