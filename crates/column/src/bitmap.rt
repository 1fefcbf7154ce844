// The validity of a column's rows.
ghost use Rattle.std.specs.Prelude.{◌≡◌, List, ℕ, ◌/◌, ◌%◌, ◌^◌, ◌≤◌, ◌<◌, length, eqb};
ghost use Rattle.codec.specs.Codec.{◌⊗◌};
ghost use Rattle.codec.specs.Skip.{Is};
ghost use Rattle.codec.specs.Field.{Stands};
ghost use Rattle.codec.specs.Forms.{bytes_c, num_c};
ghost use Rattle.column.specs.Cell.{bit_of};

// Bit k of a byte, the lowest first.
pub fn bit_of(byte: u8, k: u32) -> bool
    requires { k < 8 }
    ensures { result ≡ eqb (byte / 2 ^ k % 2) 1 }
{
    (byte >> k) % 2 == 1
}

// The bit of a row in the validity that stands at a place.
pub fn bit_at(job: &[u8], at: usize, row: u32) -> Option<bool>
    requires { Stands (bytes_c ⊗ num_c) job.now at }
    ensures { (e : ℕ) (bytes : List ℕ) (count : ℕ) → e ≤ length job.now → Is (bytes_c ⊗ num_c) job.now e at (bytes, count) → result ≡ bit_of bytes count row }
{
    let n = codec::num_in(job, at);
    let count = codec::num_in(job, at + 4 + n);
    if count <= row as usize {
        return None;
    }
    let k = (row / 8) as usize;
    if n <= k {
        return None;
    }
    Some(bit_of(job[at + 4 + k], row % 8))
}
