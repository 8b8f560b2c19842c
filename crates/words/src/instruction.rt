// The words of code: an instruction each, and TRIG, which belongs to the GET before it.
ghost use Rattle.std.specs.Prelude.{◌≡◌};
ghost use Rattle.words.specs.Inverses.{instruction_of};
ghost use Rattle.words.specs.Instructions.{instruction_in, instruction_word, cell_in, cell_bits, code_in, code_bits};

use crate::Place;
use crate::fields::{clear, field, flag, kind};
use crate::kinds::Kind;
use crate::word::Word;
use bits::{Bits, Code};

// Which cell an instruction turns to: the one named, or that one moved by register R.
#[derive(Clone, Copy, Debug, PartialEq, Eq)]
pub enum CellOperand {
    Fixed(Bits<8>),
    Moved(Bits<8>),
}

// Which code an instruction goes by: the one named, or what register R holds, which is a code too and no want of one.
#[derive(Clone, Copy, Debug, PartialEq, Eq)]
pub enum CodeOperand {
    Fixed(Code),
    Register,
}

#[derive(Clone, Copy, Debug, PartialEq, Eq)]
pub enum Instruction {
    End,
    Put(CellOperand, CodeOperand),
    Get(CellOperand, Bits<4>),
    Trig(CodeOperand),
    Freeze(CellOperand),
    If(Bits<15>, Place),
    Has(CellOperand, CodeOperand),
    Start(Bits<9>),
    Let(Code),
    Loop(Bits<15>, Place),
}

impl Word for Instruction {
    ghost spelled = { instruction_word };

    ghost read = { instruction_in };

    ghost inverse = { instruction_of };

    // None for a word of another kind, with a spare bit set, or with a code field beside bit 26.
    fn from_word(word: u32) -> Option<Self> {
        match kind(word) {
            Kind::End if clear::<28>(word, 0) => Some(Self::End),
            Kind::Put => Some(Self::Put(CellOperand::of(word), CodeOperand::of(word)?)),
            Kind::Get if clear::<14>(word, 4) && !flag(word, 26) => {
                Some(Self::Get(CellOperand::of(word), field(word, 0)))
            }
            Kind::Trig if clear::<8>(word, 18) && !flag(word, 27) => {
                Some(Self::Trig(CodeOperand::of(word)?))
            }
            Kind::Freeze if clear::<18>(word, 0) && !flag(word, 26) => {
                Some(Self::Freeze(CellOperand::of(word)))
            }
            Kind::If => Some(Self::If(field(word, 13), field(word, 0))),
            Kind::Has => Some(Self::Has(CellOperand::of(word), CodeOperand::of(word)?)),
            Kind::Start if clear::<19>(word, 9) => Some(Self::Start(field(word, 0))),
            Kind::Let if clear::<10>(word, 18) => Some(Self::Let(field(word, 0))),
            Kind::Loop => Some(Self::Loop(field(word, 13), field(word, 0))),
            _ => None,
        }
    }

    fn to_word(self) -> u32 {
        match self {
            Self::End => Kind::End.bits(),
            Self::Put(cell, code) => Kind::Put.bits() + cell.bits() + code.bits(),
            Self::Get(cell, count) => Kind::Get.bits() + cell.bits() + count.get(),
            Self::Trig(code) => Kind::Trig.bits() + code.bits(),
            Self::Freeze(cell) => Kind::Freeze.bits() + cell.bits(),
            Self::If(number, place) => Kind::If.bits() + (number.get() << 13) + place.get(),
            Self::Has(cell, code) => Kind::Has.bits() + cell.bits() + code.bits(),
            Self::Start(task) => Kind::Start.bits() + task.get(),
            Self::Let(number) => Kind::Let.bits() + number.get(),
            Self::Loop(number, place) => Kind::Loop.bits() + (number.get() << 13) + place.get(),
        }
    }
}

impl CellOperand {
    // The cell that a word names, whatever its kind.
    fn of(word: u32) -> Self
        ensures { result ≡ cell_in word }
    {
        match field(word, 18) {
            cell if flag(word, 27) => Self::Moved(cell),
            cell => Self::Fixed(cell),
        }
    }

    fn bits(self) -> u32
        ensures { result ≡ cell_bits self }
    {
        match self {
            Self::Fixed(cell) => cell.get() << 18,
            Self::Moved(cell) => (1 << 27) + (cell.get() << 18),
        }
    }
}

impl CodeOperand {
    // The code that a word goes by, whatever its kind; none where bit 26 is set beside a code field.
    fn of(word: u32) -> Option<Self>
        ensures { result ≡ code_in word }
    {
        match field::<18>(word, 0) {
            code if !flag(word, 26) => Some(Self::Fixed(code)),
            code if code.get() == 0 => Some(Self::Register),
            _ => None,
        }
    }

    fn bits(self) -> u32
        ensures { result ≡ code_bits self }
    {
        match self {
            Self::Fixed(code) => code.get(),
            Self::Register => 1 << 26,
        }
    }
}
