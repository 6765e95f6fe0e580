// Rights: read is 1, write is 2, pass on is 4, added together.

#![tactic(auto)]

ghost use Rattle.std.specs.Prelude.{◌%◌, ◌≡◌};
ghost use Rattle.rights.specs.Rules.{rights_of, within, can_read, can_write, can_pass};
ghost use Rattle.rights.specs.Chart.{charted};

// The printed chart: bit 8 * asked + held is 1 where the rights asked lie within those held, each 0 to 7. So its last row stands first and
// each row is read from the right. A word, since an array would be built anew in each call.
const CHART: u64 = 0b10000000_11000000_10100000_11110000_10001000_11001100_10101010_11111111;

// The chart's answer for the three bits of each number.
#[tactic(auto, using(crate::proofs::Chart::word_is_chart), unfolding(crate::proofs::Chart::word, crate::specs::Chart::chart, lists::specs::Parts::joined))]
fn charted(asked: u16, held: u16) -> bool
    ensures { result ≡ charted (asked % 8) (held % 8) }
{
    let row = asked % 8;
    let column = held % 8;
    (CHART >> (8 * row + column)) % 2 == 1
}

// Any number is taken as it stands. Which numbers are good rights, 1 to 7, is for the tables' rule T2 and the request's ranges.
#[derive(Clone, Copy, PartialEq, Eq)]
pub struct Rights {
    pub bits: u16,
}

impl Rights {
    pub const READ: Rights = Rights { bits: 1 };

    pub const WRITE: Rights = Rights { bits: 2 };

    pub const PASS_ON: Rights = Rights { bits: 4 };

    pub fn make(number: u16) -> Rights
        ensures { result ≡ rights_of number }
    {
        Rights { bits: number }
    }

    // Does `self` have every right that `asked` has? The chart says it.
    #[tactic(auto, using(crate::proofs::Chart::charted_is_within))]
    pub fn contains(self, asked: Rights) -> bool
        ensures { result ≡ within asked self }
    {
        charted(asked.bits, self.bits)
    }

    pub fn can_read(self) -> bool
        ensures { result ≡ can_read self }
    {
        self.contains(Rights::READ)
    }

    pub fn can_write(self) -> bool
        ensures { result ≡ can_write self }
    {
        self.contains(Rights::WRITE)
    }

    pub fn can_pass(self) -> bool
        ensures { result ≡ can_pass self }
    {
        self.contains(Rights::PASS_ON)
    }
}
