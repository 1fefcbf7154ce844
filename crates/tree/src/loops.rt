// The loops of a spec, each by its number.
ghost use Rattle.std.specs.Prelude.{◌≡◌, ℕ, ◌<◌, ◌≤◌, Bool, false, length, get_or, eqb};
ghost use Rattle.codec.specs.Codec.{le_c, list_c};
ghost use Rattle.codec.specs.Forms.{num_c, opt_c};
ghost use Rattle.codec.specs.Skip.{count_at, skip, steps};
ghost use Rattle.format.specs.Words.{any_from, if_some, member_of};
ghost use Rattle.format.specs.Spec.{Loop, loop_c};
ghost use Rattle.format.specs.Fields.{loop_children};
ghost use Rattle.format.specs.Refusal.{loop_at};
ghost use Rattle.says.specs.Says.{Says, Searched};
ghost use Rattle.tree.specs.Parts.{LoopAt, Placed, TestsLoops, held};

use codec::forms::Le;
use codec::{Form, Section};

// Loops that stand at a place, and where the first of them and their children do.
#[derive(Clone, Copy)]
pub struct Loops<'a, 'p> {
    pub section: Section<'a>,
    pub at: usize,
    pub places: &'p [(usize, usize)],
    pub ghost placed: { Placed section.bytes.now section.end at places.now },
}

impl<'a, 'p> Loops<'a, 'p> {
    // Where loop i stands.
    pub fn place_of(self, i: usize) -> usize
        ensures stands { i < count_at self.entry.section.bytes.now self.entry.at self.entry.section.end → result ≡ steps loop_c self.entry.section.bytes.now self.entry.section.end i (skip (le_c 4) self.entry.section.bytes.now self.entry.at self.entry.section.end) }
        ensures noted { i < length self.entry.places.now → result ≡ (get_or self.entry.places.now i (0, 0)).0 }
        ensures counted { length self.entry.places.now ≤ i → result ≡ steps loop_c self.entry.section.bytes.now self.entry.section.end i (skip (le_c 4) self.entry.section.bytes.now self.entry.at self.entry.section.end) }
    {
        if i < self.places.len() {
            return self.places[i].0;
        }
        loop_place(self.section, self.at, i)
    }

    // Where the children of loop i stand.
    pub fn below(self, i: usize) -> usize
        ensures stands { i < count_at self.entry.section.bytes.now self.entry.at self.entry.section.end → result ≡ loop_children self.entry.section.bytes.now self.entry.section.end (steps loop_c self.entry.section.bytes.now self.entry.section.end i (skip (le_c 4) self.entry.section.bytes.now self.entry.at self.entry.section.end)) }
        ensures noted { i < length self.entry.places.now → result ≡ (get_or self.entry.places.now i (0, 0)).1 }
        ensures counted { length self.entry.places.now ≤ i → result ≡ loop_children self.entry.section.bytes.now self.entry.section.end (steps loop_c self.entry.section.bytes.now self.entry.section.end i (skip (le_c 4) self.entry.section.bytes.now self.entry.at self.entry.section.end)) }
    {
        if i < self.places.len() {
            return self.places[i].1;
        }
        let p = loop_place(self.section, self.at, i);
        crate::children_at(self.section, p)
    }

    // The parent of loop c.
    pub fn parent(self, c: usize) -> Option<usize>
        ensures says { Says (list_c loop_c) self.entry.section.bytes.now self.entry.section.end self.entry.at (λ ls. held (loop_at ls c).parent) result }
        ensures past { count_at self.entry.section.bytes.now self.entry.at self.entry.section.end ≤ c → result ≡ None }
    {
        let s = self.section;
        if s.count_at(self.at) <= c {
            return None;
        }
        let p = self.place_of(c);
        if s.case(p) == Some(1) {
            let q = s.le_at(1, p);
            return Some(s.count_at(q));
        }
        None
    }

    // Whether the parent of loop c is i.
    pub fn parent_is(self, i: usize, c: usize) -> bool
        ensures says { Says (list_c loop_c) self.entry.section.bytes.now self.entry.section.end self.entry.at (λ ls. if_some (eqb i) (loop_at ls c).parent) result }
        ensures past { count_at self.entry.section.bytes.now self.entry.at self.entry.section.end ≤ c → result ≡ false }
    {
        if self.section.count_at(self.at) <= c {
            return false;
        }
        let p = self.place_of(c);
        opt_same_at(self.section, p, i)
    }

    // Whether i is a child of loop c.
    pub fn is_child(self, i: usize, c: usize) -> bool
        ensures says { Says (list_c loop_c) self.entry.section.bytes.now self.entry.section.end self.entry.at (λ ls. member_of i (loop_at ls c).children) result }
        ensures past { count_at self.entry.section.bytes.now self.entry.at self.entry.section.end ≤ c → result ≡ false }
    {
        let n = self.section.count_at(self.at);
        if n <= c {
            return false;
        }
        let children = self.below(c);
        member_at(self.section, children, i)
    }

    // Whether some loop is found, by a test that is told its number, where it stands and where its children do.
    pub fn some<T: Fn(usize, usize, usize) -> bool>(self, test: T) -> bool
        requires { (k : ℕ) (p : ℕ) (q : ℕ) → LoopAt self.section.bytes.now self.section.end self.at k p q → T.pre test k p q }
        ensures says { (f : ℕ → Loop → Bool) → TestsLoops self.entry.section.bytes.now self.entry.section.end self.entry.at (T.post test) f → Says (list_c loop_c) self.entry.section.bytes.now self.entry.section.end self.entry.at (any_from f 0) result }
        ensures asked { Searched loop_c self.entry.section.bytes.now self.entry.section.end (λ k p. T.post test k p (loop_children self.entry.section.bytes.now self.entry.section.end p)) (count_at self.entry.section.bytes.now self.entry.at self.entry.section.end) (skip (le_c 4) self.entry.section.bytes.now self.entry.at self.entry.section.end) result }
    {
        let n = self.section.count_at(self.at);
        for k in 0..n {
            let p = self.place_of(k);
            let children = self.below(k);
            if test(k, p, children) {
                return true;
            }
        }
        false
    }
}

fn loop_place(s: Section, at: usize, i: usize) -> usize
    ensures { result ≡ steps loop_c s.entry.bytes.now s.entry.end i (skip (le_c 4) s.entry.bytes.now at s.entry.end) }
{
    let mut p = s.le_at(4, at);
    for _k in 0..i {
        p = format::Loop::ends_at(s, p);
    }
    p
}

fn opt_same_at(s: Section, at: usize, i: usize) -> bool
    ensures { Says (opt_c num_c) s.entry.bytes.now s.entry.end at (if_some (eqb i)) result }
{
    says::lists::opt_at::<Le<4>, _>(s, at, |p| crate::same_at(s, p, i))
}

fn member_at(s: Section, at: usize, i: usize) -> bool
    ensures { Says (list_c num_c) s.entry.bytes.now s.entry.end at (member_of i) result }
{
    says::lists::any_at::<Le<4>, _>(s, at, |p| crate::same_at(s, p, i))
}
