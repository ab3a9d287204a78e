ghost use Rattle.std.specs.Prelude.{◌≡◌, IfOk};
ghost use Rattle.nona_tree.specs.Entries.{may_reshape};

use crate::names::Use;
use nona_num::Fold;
use sqlite_items::{Boxed, Items};
use std::alloc::{AllocError, Global};

/// A binary operator, which takes the value on its left first.
#[derive(Clone, Copy, Debug, PartialEq, Eq)]
pub enum Op {
    /// `+`, wrapped.
    Add,
    /// `-`, wrapped.
    Sub,
    /// `*`, wrapped.
    Mul,
    /// `/`, rounded toward zero; a trap where the right value is 0.
    Div,
    /// `%`, with the sign of the left value; a trap where the right value is 0.
    Rem,
    /// `&`, bit by bit.
    And,
    /// `|`, bit by bit.
    Or,
    /// `^`, bit by bit.
    Xor,
    /// `<<`, wrapped, by the right value modulo 64.
    Shl,
    /// `>>`, which keeps the sign, by the right value modulo 64.
    Shr,
    /// `==`: 1 where it holds, else 0, as with all comparisons.
    Eq,
    /// `!=`
    Ne,
    /// `<`
    Lt,
    /// `<=`
    Le,
    /// `>`
    Gt,
    /// `>=`
    Ge,
}

/// A cell of an array: `array[index]` or `array[wrap index]`.
#[cycle(expr)]
#[derive(Debug, Drop)]
pub struct Access {
    /// The array's name, whose place is that of the access's traps.
    pub array: Use,
    /// Whether the index is taken modulo the array's length.
    pub wrap: bool,
    pub index: Expr,
}

impl Access {
    /// An equal access. The one error is that memory ran out.
    #[cycle(expr)]
    pub fn copy(&self, alloc: Global) -> Result<Access, AllocError>
        ensures { IfOk result (λ c. c ≡ self.now) }
    {
        Ok(Access {
            array: self.array.copy(),
            wrap: self.wrap,
            index: self.index.copy(alloc)?,
        })
    }
}

/// An expression.
#[cycle(expr)]
#[derive(Debug, Drop)]
pub enum Expr {
    Number(i64),
    Scalar(Use),
    Cell(Boxed<Access>),
    /// `len(array)`: how many cells the array has.
    Len(Use),
    /// `-value`, wrapped.
    Neg(Boxed<Expr>),
    /// `!value`: 1 where the value is 0, else 0.
    Not(Boxed<Expr>),
    /// `left op right`; `at` is the place of the operator.
    Binary {
        op: Op,
        at: u32,
        left: Boxed<Expr>,
        right: Boxed<Expr>,
    },
}

impl Expr {
    /// A number, in a box. The one error is that memory ran out, as with all that make an expression in a box.
    #[inline(never)]
    pub fn boxed_number(alloc: Global, value: i64) -> Result<Boxed<Expr>, AllocError>
        ensures { IfOk result (λ e. e ≡ Expr.Number value) }
    {
        Boxed::new(alloc, Expr::Number(value))
    }

    /// `-value`, in a box.
    #[inline(never)]
    pub fn boxed_neg(alloc: Global, value: Boxed<Expr>) -> Result<Boxed<Expr>, AllocError>
        ensures { IfOk result (λ e. e ≡ Expr.Neg value) }
    {
        Boxed::new(alloc, Expr::Neg(value))
    }

    /// `!value`, in a box.
    #[inline(never)]
    pub fn boxed_not(alloc: Global, value: Boxed<Expr>) -> Result<Boxed<Expr>, AllocError>
        ensures { IfOk result (λ e. e ≡ Expr.Not value) }
    {
        Boxed::new(alloc, Expr::Not(value))
    }

    /// `left op right`, in a box; `at` is the place of the operator.
    #[inline(never)]
    pub fn boxed_binary(
        alloc: Global,
        op: Op,
        at: u32,
        left: Boxed<Expr>,
        right: Boxed<Expr>,
    ) -> Result<Boxed<Expr>, AllocError>
        ensures { IfOk result (λ e. e ≡ Expr.Binary op at left right) }
    {
        let both = Expr::Binary {
            op,
            at,
            left,
            right,
        };
        Boxed::new(alloc, both)
    }

    /// An equal expression. The one error is that memory ran out.
    #[cycle(expr)]
    pub fn copy(&self, alloc: Global) -> Result<Expr, AllocError>
        ensures { IfOk result (λ e. e ≡ self.now) }
    {
        let copied = self.copy_boxed(alloc)?;
        Ok(copied.into_inner())
    }

    /// An equal expression, in a box. An expression may be some 4,096 levels deep: 64 brackets with 64 operators in each.
    /// So a level takes little of the stack here: what is large is in a function of its own.
    #[cycle(expr)]
    fn copy_boxed(&self, alloc: Global) -> Result<Boxed<Expr>, AllocError>
        ensures { IfOk result (λ e. e ≡ self.now) }
    {
        match self {
            Expr::Number(value) => Expr::boxed_number(alloc, *value),
            Expr::Scalar(name) => copy_scalar(alloc, name),
            Expr::Cell(place) => copy_cell(alloc, place.get()),
            Expr::Len(array) => copy_length(alloc, array),
            Expr::Neg(value) => {
                let value = value.get().copy_boxed(alloc)?;
                Expr::boxed_neg(alloc, value)
            }
            Expr::Not(value) => {
                let value = value.get().copy_boxed(alloc)?;
                Expr::boxed_not(alloc, value)
            }
            Expr::Binary {
                op,
                at,
                left,
                right,
            } => {
                let left = left.get().copy_boxed(alloc)?;
                let right = right.get().copy_boxed(alloc)?;
                Expr::boxed_binary(alloc, *op, *at, left, right)
            }
        }
    }
}

/// A scalar of this name, in a box.
#[inline(never)]
fn copy_scalar(alloc: Global, name: &Use) -> Result<Boxed<Expr>, AllocError>
    ensures { IfOk result (λ e. e ≡ Expr.Scalar name.now) }
{
    Boxed::new(alloc, Expr::Scalar(name.copy()))
}

/// The length of the array of this name, in a box.
#[inline(never)]
fn copy_length(alloc: Global, array: &Use) -> Result<Boxed<Expr>, AllocError>
    ensures { IfOk result (λ e. e ≡ Expr.Len array.now) }
{
    Boxed::new(alloc, Expr::Len(array.copy()))
}

/// An equal cell, in a box.
#[inline(never)]
#[cycle(expr)]
fn copy_cell(alloc: Global, place: &Access) -> Result<Boxed<Expr>, AllocError>
    ensures { IfOk result (λ e. e ≡ Expr.Cell place.now) }
{
    let copied = Boxed::new(alloc, place.copy(alloc)?)?;
    Boxed::new(alloc, Expr::Cell(copied))
}

/// A loop whose index runs from `low` up to, without, `high`.
#[cycle(stmt)]
#[derive(Debug, Drop)]
pub struct Loop {
    pub index: Use,
    pub low: Expr,
    pub high: Expr,
    pub body: Items<Stmt>,
    /// Whether it is written `seq for`.
    pub seq: bool,
    /// The place of the word `for`.
    pub at: u32,
}

impl Loop {
    /// Whether it may run in other versions than one thread's: it isn't written `seq for`.
    pub fn may_reshape(&self) -> bool
        ensures { result ≡ may_reshape self.now }
    {
        !self.seq
    }

    /// An equal loop. The one error is that memory ran out.
    #[cycle(stmt)]
    pub fn copy(&self, alloc: Global) -> Result<Loop, AllocError>
        ensures { IfOk result (λ l. l ≡ self.now) }
    {
        Ok(Loop {
            index: self.index.copy(),
            low: self.low.copy(alloc)?,
            high: self.high.copy(alloc)?,
            body: copy_statements(self.body.as_slice(), alloc)?,
            seq: self.seq,
            at: self.at,
        })
    }
}

/// A statement. Each `Items<Stmt>` in it is a block.
#[cycle(stmt)]
#[derive(Debug, Drop)]
pub enum Stmt {
    /// `let name = value;`: a new scalar, which is visible to the end of the block.
    Let {
        name: Use,
        value: Expr,
    },
    /// `name = value;`
    Set {
        name: Use,
        value: Expr,
    },
    /// `name op= value;`
    Fold {
        name: Use,
        fold: Fold,
        value: Expr,
    },
    /// `array[index] = value;`
    Put {
        place: Access,
        value: Expr,
    },
    /// `array[index] op= value;`
    FoldPut {
        place: Access,
        fold: Fold,
        value: Expr,
    },
    /// `if test { yes } else { no }`, which takes `no` where the test is 0. Without an `else`, `no` is empty.
    If {
        test: Expr,
        yes: Items<Stmt>,
        no: Items<Stmt>,
    },
    /// `while test { body }`, which ends where the test is 0; `at` is the place of the word `while`.
    While {
        test: Expr,
        body: Items<Stmt>,
        at: u32,
    },
    For(Loop),
    /// `print value;`; `at` is the place of the word `print`.
    Print {
        value: Expr,
        at: u32,
    },
}

impl Stmt {
    /// An equal statement. The one error is that memory ran out.
    #[cycle(stmt)]
    pub fn copy(&self, alloc: Global) -> Result<Stmt, AllocError>
        ensures { IfOk result (λ s. s ≡ self.now) }
    {
        match self {
            Stmt::Let { name, value } => Ok(Stmt::Let {
                name: name.copy(),
                value: value.copy(alloc)?,
            }),
            Stmt::Set { name, value } => Ok(Stmt::Set {
                name: name.copy(),
                value: value.copy(alloc)?,
            }),
            Stmt::Fold { name, fold, value } => Ok(Stmt::Fold {
                name: name.copy(),
                fold: *fold,
                value: value.copy(alloc)?,
            }),
            Stmt::Put { place, value } => Ok(Stmt::Put {
                place: place.copy(alloc)?,
                value: value.copy(alloc)?,
            }),
            Stmt::FoldPut { place, fold, value } => Ok(Stmt::FoldPut {
                place: place.copy(alloc)?,
                fold: *fold,
                value: value.copy(alloc)?,
            }),
            Stmt::If { test, yes, no } => Ok(Stmt::If {
                test: test.copy(alloc)?,
                yes: copy_statements(yes.as_slice(), alloc)?,
                no: copy_statements(no.as_slice(), alloc)?,
            }),
            Stmt::While { test, body, at } => Ok(Stmt::While {
                test: test.copy(alloc)?,
                body: copy_statements(body.as_slice(), alloc)?,
                at: *at,
            }),
            Stmt::For(looped) => Ok(Stmt::For(looped.copy(alloc)?)),
            Stmt::Print { value, at } => Ok(Stmt::Print {
                value: value.copy(alloc)?,
                at: *at,
            }),
        }
    }
}

/// Equal statements, in the same order. The one error is that memory ran out.
#[cycle(stmt)]
pub fn copy_statements(block: &[Stmt], alloc: Global) -> Result<Items<Stmt>, AllocError>
    ensures { IfOk result (λ b. b ≡ block.now) }
{
    let mut copies = Items::new(alloc);
    for stmt in block {
        copies.push(stmt.copy(alloc)?)?;
    }
    Ok(copies)
}

/// `array name[cells];`. Its cells start at 0.
#[derive(Debug, Drop)]
pub struct ArrayDecl {
    pub name: Use,
    /// How many cells it has.
    pub cells: i64,
    /// The place of that number.
    pub cells_at: u32,
}

/// `var name;` or `var name = value;`. Without a number the value is 0.
#[derive(Debug, Drop)]
pub struct VarDecl {
    pub name: Use,
    pub value: i64,
}

/// A program: its arrays and its variables, each in text order, and its statements.
#[derive(Debug, Drop)]
pub struct Program {
    pub arrays: Items<ArrayDecl>,
    pub vars: Items<VarDecl>,
    pub body: Items<Stmt>,
}
