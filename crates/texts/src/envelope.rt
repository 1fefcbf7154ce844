// How far an envelope value and a control number are padded.
ghost use Rattle.std.specs.Prelude.{◌≡◌, ℕ, List, ◌++◌, length, replicate};
ghost use Rattle.texts.specs.Pad.{padded, zero_padded};

// The zeros to the left of a text and the spaces to its right.
#[derive(Clone, Copy)]
pub struct Padding {
    pub zeros: usize,
    pub spaces: usize,
}

// A value shorter than its element's minimum is filled up if it is a number, by zeros, or if the element has one width, by spaces.
pub fn pad(len: usize, numeric: bool, min: Option<usize>, max: Option<usize>) -> Padding
    ensures { (text : List ℕ) → length text ≡ len → replicate result.zeros 48 ++ (text ++ replicate result.spaces 32) ≡ padded numeric min max text }
{
    let short = min.unwrap_or(0).saturating_sub(len);
    if numeric {
        return Padding {
            zeros: short,
            spaces: 0,
        };
    }
    if max == min {
        return Padding {
            zeros: 0,
            spaces: short,
        };
    }
    Padding {
        zeros: 0,
        spaces: 0,
    }
}

// The zeros to the left of a control number, whatever its element's kind.
pub fn control_padding(len: usize, min: Option<usize>) -> usize
    ensures { (text : List ℕ) → length text ≡ len → replicate result 48 ++ text ≡ zero_padded min text }
{
    min.unwrap_or(0).saturating_sub(len)
}
