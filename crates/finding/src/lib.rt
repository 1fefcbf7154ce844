// A finding as ten numbers, and findings in a lent list.
#![tactic(auto)]

ghost use Rattle.std.specs.Prelude.{◌≡◌, ◌+◌, ◌*◌, ◌<◌, get_or, drop, set};
ghost use Rattle.std.proofs.lemmas.List.Edits.{sets};
ghost use Rattle.finding.specs.Records.{finding_at, findings_in};

mod line;

/// One finding: what contradicts itself in a job's data, or a text that the document can't carry (docs/RULES.md, "Findings"). It is ten numbers, which C
/// reads as ten `uint64_t`; values that a kind doesn't use are 0, and a key or a reference, which is signed, stands as its 64 bits. It prints as its line
/// of the listing (docs/RULES.md, "The listing").
#[repr(C)]
#[derive(Clone, Copy)]
pub struct Finding {
    /// 0 a duplicate key (`DR`), 1 a missing parent (`MP`), 2 a mismatched reference (`MR`), 3 a row out of order (`OO`), 4 a separator inside a text
    /// (`DV`), 5 a value that can't be written (`NW`).
    pub kind: u64,
    /// By the kind:
    /// - 0: table, row, key, first row with that key;
    /// - 1: table, row, parent, 1 and the reference or 0 and 0 where there is none;
    /// - 2: table, row, ancestor, the row's reference to it, parent, parent row (the row that it hangs on), that row's reference to the ancestor;
    /// - 3: table, row, the table above, the reference to it or 0, the highest row entered before;
    /// - 4: seven values of the text's place (below), the separator's byte, its role: 0 element, 1 component, 2 segment, 3 repetition;
    /// - 5: seven values of the text's place, the reason, 1 to 4 (docs/RULES.md, "Reasons"), 0.
    ///
    /// A text's place: 0, table, row and column of a cell, or 1, the envelope field's number, 0 and 0; the segment's identifier, its bytes as one
    /// number to the base 256, the first the highest; the element; the component plus one, or 0 for none.
    pub values: [u64; 9],
}

// Number j of record i of a list of numbers, ten a record; past the end zeros.
fn word_at(words: &[u64], i: usize, j: u8) -> u64
    ensures { result ≡ get_or (drop (i * 10) words.now) j 0 }
{
    if words.len() / 10 < i {
        return 0;
    }
    let k = i * 10 + j as usize;
    if k < words.len() {
        return words[k];
    }
    0
}

/// Record i of a list of numbers, ten a record; numbers past the list's end are 0.
#[tactic(auto, unfolding(crate::specs::Records::finding_at))]
pub fn finding_at(words: &[u64], i: usize) -> Finding
    ensures { result ≡ finding_at words.now i }
{
    let kind = word_at(words, i, 0);
    let values = [
        word_at(words, i, 1),
        word_at(words, i, 2),
        word_at(words, i, 3),
        word_at(words, i, 4),
        word_at(words, i, 5),
        word_at(words, i, 6),
        word_at(words, i, 7),
        word_at(words, i, 8),
        word_at(words, i, 9),
    ];
    Finding { kind, values }
}

/// Stores one finding at its place; past the end of the list nothing.
pub fn append(findings: &mut [Finding], at: usize, f: Finding)
    ensures { findings.new ≡ set findings.old at f }
{
    if at < findings.len() {
        findings[at] = f;
    }
}

/// Stores records i, i + 1, .., `left` of them, of a list of numbers from place `at` of `findings` on, as far as they fit.
#[tactic(auto, unfolding(crate::specs::Records::findings_in), using(crate::proofs::Records::one_more))]
pub fn append_all(findings: &mut [Finding], words: &[u64], at: usize, i: usize, left: usize)
    requires { (at + left < 9223372036854775808) × (i + left < 9223372036854775808) }
    ensures { findings.new ≡ sets findings.old at (findings_in words.now i left) }
{
    for k in 0..left {
        append(findings, at + k, finding_at(words, i + k));
    }
}
