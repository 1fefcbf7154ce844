// A stretch of a job's bytes, and its readers: most answer the place behind what they read, or one past the end where it is bad. That place is past
// every end, so a reading behind it is bad too, without a test.
ghost use Rattle.std.specs.Prelude.{◌≤◌, length};

use crate::Form;
use crate::forms::{Bytes, Le, Opt};

// The bytes up to `end`, which is within them.
#[derive(Clone, Copy)]
pub struct Section<'a> {
    pub bytes: &'a [u8],
    pub end: u32,
    pub ghost within: { end ≤ length bytes.now },
}

impl<'a> Section<'a> {
    ghost use Rattle.std.specs.Prelude.{◌≡◌, ◌+◌, ◌<◌};
    ghost use Rattle.codec.specs.Codec.{le_c, list_c};
    ghost use Rattle.codec.specs.Skip.{count_at, case_of, case_end};
    ghost use Rattle.codec.specs.Forms.{num_c, bytes_c, opt_c};
    ghost use Rattle.codec.specs.Within.{ends};

    // One past the end: where nothing was read, as in `skip`.
    pub fn past(self) -> usize
        ensures { result ≡ self.entry.end + 1 }
    {
        self.end as usize + 1
    }

    // A number of w bytes.
    pub fn le_at(self, w: u8, at: usize) -> usize
        ensures { result ≡ ends (le_c w) self.entry at }
    {
        crate::le_at(self.bytes, w, at, self.end)
    }

    // The count in front of a list, 0 where there is none: a list that isn't there has no items to go through.
    pub fn count_at(self, at: usize) -> usize
        ensures { (result ≡ count_at self.entry.bytes.now at self.entry.end) × (result < 4294967296) }
    {
        let e = self.end as usize;
        if e < at || e < at + 4 {
            return 0;
        }
        crate::num_in(self.bytes, at)
    }

    // A list of numbers of w bytes.
    pub fn les_at(self, w: u8, at: usize) -> usize
        ensures { result ≡ ends (list_c (le_c w)) self.entry at }
    {
        let e = self.end as usize;
        if e < at || e < at + 4 {
            return e + 1;
        }
        let p = at + 4;
        let n = crate::num_in(self.bytes, at) * w as usize;
        if e - p < n {
            return e + 1;
        }
        p + n
    }

    // The byte of a case at a place, if there is one: an enum's case is a number in the job, counted from 0.
    pub fn case(self, at: usize) -> Option<u8>
        ensures { result ≡ case_of self.entry.bytes.now at self.entry.end }
    {
        if self.end as usize <= at {
            return None;
        }
        Some(self.bytes[at])
    }

    // An enum of n cases that hold nothing.
    pub fn case_at(self, n: u8, at: usize) -> usize
        ensures { result ≡ case_end self.entry.bytes.now at self.entry.end n }
    {
        match self.case(at) {
            Some(t) if t < n => at + 1,
            _ => self.past(),
        }
    }

    pub fn bytes_at(self, at: usize) -> usize
        ensures { result ≡ ends bytes_c self.entry at }
    {
        self.les_at(1, at)
    }

    pub fn opt_num_at(self, at: usize) -> usize
        ensures { result ≡ ends (opt_c num_c) self.entry at }
    {
        Opt::<Le<4>>::ends_at(self, at)
    }

    pub fn opt_bytes_at(self, at: usize) -> usize
        ensures { result ≡ ends (opt_c bytes_c) self.entry at }
    {
        Opt::<Bytes>::ends_at(self, at)
    }
}
