use nona_num::Fold;
use nona_tree::Op;

/// One instruction. It takes numbers from the top of a stack, the upper one last, and puts numbers there.
///
/// A target is the number of an instruction, counted from 0. An id from 2^31 on names the hidden scalar whose number it is
/// above 2^31. `at` is the place in the program that a trap or the end of turns tells.
#[derive(Clone, Copy, Debug, PartialEq, Eq)]
pub enum Instr {
    /// Puts a number.
    Push(i64),
    /// Puts the scalar with this id.
    Load(u32),
    /// Puts how many cells the array with this id has.
    Len(u32),
    /// Takes a number and gives it to the scalar with this id.
    Save(u32),
    /// Takes a number.
    Drop,
    /// Takes a number and prints it.
    Print,
    /// Takes a number and declares a scalar with it.
    Declare,
    /// Drops so many of the last scalars.
    Leave(u32),
    /// `Bound(array, wrap, at)`: takes an index, wrapped or plain, and puts the number of the cell that it names, or traps.
    Bound(u32, bool, u32),
    /// Takes the number of a cell of this array and puts the cell.
    Get(u32),
    /// Takes the number of a cell of this array and a number, and gives it to the cell.
    Put(u32),
    /// Takes the number of a cell of this array and a number, and joins it into the cell.
    FoldPut(u32, Fold),
    /// Takes a number and joins it into the scalar with this id, which is no hidden one.
    FoldSave(u32, Fold),
    /// Takes a number and puts its negation.
    Neg,
    /// Takes a number and puts 1 where it is 0, else 0.
    Not,
    /// `Binary(op, at)`: takes the left and the right side of an operator and puts its value, or traps.
    Binary(Op, u32),
    /// Goes on at a target.
    Jump(u32),
    /// Takes a number and goes on at a target where it is 0.
    Zero(u32),
    /// Sets the counter with this number to 0.
    Enter(u32),
    /// `Turn(counter, at)`: counts one more turn, or ends the run where no more are allowed.
    Turn(u32, u32),
    /// Takes the low and the high bound of the region with this number and stops there.
    Region(u32),
    /// Ends the run.
    Stop,
}
