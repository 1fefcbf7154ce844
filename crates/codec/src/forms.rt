// The forms of a job's bytes, each by a type of its own: what stands at a place, and where it ends.
ghost use Rattle.std.specs.Prelude.{◌≡◌, ℕ, List, Bool, Option};
ghost use Rattle.codec.specs.Codec.{Codec, le_c, list_c, ◌⊗◌};
ghost use Rattle.codec.specs.Forms.{flag_c, opt_c};
ghost use Rattle.codec.specs.Maps.{bytes_map_c, num_map_c};
ghost use Rattle.codec.specs.Within.{ends};

use crate::Section;
use std::marker::PhantomData;

pub trait Form {
    ghost Value: { Type 0 };

    ghost codec: { Codec Value };

    fn ends_at(s: Section, at: usize) -> usize
        ensures { result ≡ ends codec s.entry at };
}

// A number of W bytes.
pub struct Le<const W: u8>;

impl<const W: u8> Form for Le<W> {
    ghost Value = { ℕ };

    ghost codec = { le_c W };

    fn ends_at(s: Section, at: usize) -> usize {
        s.le_at(W, at)
    }
}

// A list of numbers of W bytes.
pub struct Les<const W: u8>;

impl<const W: u8> Form for Les<W> {
    ghost Value = { List ℕ };

    ghost codec = { list_c (le_c W) };

    fn ends_at(s: Section, at: usize) -> usize {
        s.les_at(W, at)
    }
}

pub struct Flag;

impl Form for Flag {
    ghost Value = { Bool };

    ghost codec = { flag_c };

    fn ends_at(s: Section, at: usize) -> usize {
        s.case_at(2, at)
    }
}

// One form after the other.
impl<F: Form, G: Form> Form for (F, G) {
    ghost Value = { F.Value × G.Value };

    ghost codec = { F.codec ⊗ G.codec };

    fn ends_at(s: Section, at: usize) -> usize {
        G::ends_at(s, F::ends_at(s, at))
    }
}

pub struct Opt<F> {
    of: PhantomData<F>,
}

impl<F: Form> Form for Opt<F> {
    ghost Value = { Option F.Value };

    ghost codec = { opt_c F.codec };

    fn ends_at(s: Section, at: usize) -> usize {
        match s.case(at) {
            Some(0) => at + 1,
            Some(1) => F::ends_at(s, at + 1),
            _ => s.past(),
        }
    }
}

pub struct Items<F> {
    of: PhantomData<F>,
}

impl<F: Form> Form for Items<F> {
    ghost Value = { List F.Value };

    ghost codec = { list_c F.codec };

    fn ends_at(s: Section, at: usize) -> usize {
        let n = s.count_at(at);
        let mut p = s.le_at(4, at);
        for _i in 0..n {
            if (s.end as usize) < p {
                return s.past();
            }
            p = F::ends_at(s, p);
        }
        p
    }
}

// Values by rising numbers.
pub struct NumMap<F> {
    of: PhantomData<F>,
}

impl<F: Form> Form for NumMap<F> {
    ghost Value = { List (ℕ × F.Value) };

    ghost codec = { num_map_c F.codec };

    fn ends_at(s: Section, at: usize) -> usize {
        let n = s.count_at(at);
        let mut p = s.le_at(4, at);
        let mut low: usize = 0;
        for _i in 0..n {
            if (s.end as usize) < p {
                return s.past();
            }
            let key = s.count_at(p);
            if key < low {
                return s.past();
            }
            let value = s.le_at(4, p);
            p = F::ends_at(s, value);
            low = key + 1;
        }
        p
    }
}

// Values by rising byte strings.
pub struct BytesMap<F> {
    of: PhantomData<F>,
}

impl<F: Form> Form for BytesMap<F> {
    ghost Value = { List (List ℕ × F.Value) };

    ghost codec = { bytes_map_c F.codec };

    fn ends_at(s: Section, at: usize) -> usize {
        let n = s.count_at(at);
        let mut p = s.le_at(4, at);
        let mut last: Option<usize> = None;
        for _i in 0..n {
            if (s.end as usize) < p {
                return s.past();
            }
            if !crate::follows(s.bytes, last, p) {
                return s.past();
            }
            let value = s.bytes_at(p);
            last = Some(p);
            p = F::ends_at(s, value);
        }
        p
    }
}

// A byte string.
pub type Bytes = Les<1>;
