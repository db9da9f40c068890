//! Scripts as trees. A place is that of the name, number or sign that it stands beside.
pub use crate::names::{FileText, Name};
pub use crate::rows::{Column, Row};

/// A place in a text: line and column, both counted from 1, columns in bytes. 8 bytes.
#[derive(Clone, Copy, Debug, PartialEq, Eq)]
pub struct Place {
    pub line: u32,
    pub column: u32,
}

/// The base names, followed by the four domain operators. 1 byte.
#[derive(Clone, Copy, Debug, PartialEq, Eq)]
pub enum Base {
    L,
    O,
    I,
    Ln1,
    On1,
    L1n,
    O1n,
    Dom,
    Ran,
    Trans,
    Refl,
    Epsi,
    Point,
    Atom,
    Init,
    Next,
    Inj,
    Empty,
    Unival,
    Less,
    Hasse,
    Quot,
    Syq,
    Eq,
    Incl,
    Ubd,
    Lbd,
    Least,
    Greatest,
    Sup,
    Inf,
    P1,
    P2,
    I1,
    I2,
}

/// The operators of chains: `|`, `&`, `*`, `\` and `/`. 1 byte.
#[derive(Clone, Copy, Debug, PartialEq, Eq)]
pub enum Op2 {
    Or,
    And,
    Times,
    Under,
    Over,
}

/// An expression. Parentheses have no node of their own. Names and operands are on the heap.
#[cycle(expr)]
pub enum Expr {
    /// A relation's name, a parameter or a variable.
    Ref {
        at: Place,
        name: Name,
    },
    /// A call of a definition.
    Call {
        at: Place,
        name: Name,
        args: Vec<Expr>,
    },
    /// A call of a base name.
    Base {
        at: Place,
        base: Base,
        args: Vec<Expr>,
    },
    /// A projection or an injection of a declared domain.
    Inject {
        at: Place,
        base: Base,
        domain: Name,
    },
    /// `[left, right]`.
    Pair {
        at: Place,
        left: Box<Expr>,
        right: Box<Expr>,
    },
    /// `-of`.
    Minus {
        at: Place,
        of: Box<Expr>,
    },
    /// `of^`, with the number of `^` given.
    Turned {
        at: Place,
        of: Box<Expr>,
        times: u32,
    },
    /// Two or more operands of one precedence level, grouped from the left.
    Chain {
        first: Box<Expr>,
        rest: Vec<Link>,
    },
}

impl Drop for Expr {
    #[cycle(expr)]
    fn drop(self) {
        match self {
            Expr::Ref { at: _, name: _ } => {}
            Expr::Call {
                at: _,
                name: _,
                args: _,
            } => {}
            Expr::Base {
                at: _,
                base: _,
                args: _,
            } => {}
            Expr::Inject {
                at: _,
                base: _,
                domain: _,
            } => {}
            Expr::Pair {
                at: _,
                left: _,
                right: _,
            } => {}
            Expr::Minus { at: _, of: _ } => {}
            Expr::Turned {
                at: _,
                of: _,
                times: _,
            } => {}
            Expr::Chain { first: _, rest: _ } => {}
        }
    }
}

/// An operator of a chain and its right operand.
#[cycle(expr)]
#[derive(Drop)]
pub struct Link {
    pub at: Place,
    pub op: Op2,
    pub right: Expr,
}

/// A declaration of a program. Names are on the heap.
pub enum Decl {
    /// A variable.
    Variable {
        at: Place,
        name: Name,
    },
    /// A sum or product of the domains of two parameters.
    Domain {
        at: Place,
        name: Name,
        sum: bool,
        left: Name,
        right: Name,
    },
}

impl Drop for Decl {
    fn drop(self) {
        match self {
            Decl::Variable { at: _, name: _ } => {}
            Decl::Domain {
                at: _,
                name: _,
                sum: _,
                left: _,
                right: _,
            } => {}
        }
    }
}

/// A statement of a program. Its parts are on the heap.
pub enum Stmt {
    /// `name = value`.
    Set {
        at: Place,
        name: Name,
        value: Expr,
    },
    /// `WHILE test DO body OD`.
    While {
        at: Place,
        test: Expr,
        body: Vec<Stmt>,
    },
    /// `IF test THEN yes ELSE no FI`.
    If {
        at: Place,
        test: Expr,
        yes: Vec<Stmt>,
        no: Vec<Stmt>,
    },
}

impl Drop for Stmt {
    fn drop(self) {
        match self {
            Stmt::Set {
                at: _,
                name: _,
                value: _,
            } => {}
            Stmt::While {
                at: _,
                test: _,
                body: _,
            } => {}
            Stmt::If {
                at: _,
                test: _,
                yes: _,
                no: _,
            } => {}
        }
    }
}

/// An assignment in a block: `LET name = value`.
#[derive(Drop)]
pub struct Let {
    pub at: Place,
    pub name: Name,
    pub value: Expr,
}

/// A command.
pub enum Command {
    /// `REL name rows cols { list }`.
    Relation {
        name: Name,
        rows: u64,
        rows_at: Place,
        cols: u64,
        cols_at: Place,
        list: Vec<Row>,
    },
    /// `LET name = value`.
    Let {
        name: Name,
        value: Expr,
    },
    /// `PRINT value`.
    Print {
        value: Expr,
    },
    /// `LIST value`.
    List {
        value: Expr,
    },
    /// `COUNT value`.
    Count {
        value: Expr,
    },
    /// `TYPE value`.
    Typed {
        value: Expr,
    },
    /// `DROP name`.
    Remove {
        at: Place,
        name: Name,
    },
    /// `SNAP name`.
    Snap {
        name: Name,
    },
    /// `AT name PRINT value`.
    At {
        at: Place,
        name: Name,
        value: Expr,
    },
    /// `LOAD name "file"`.
    Load {
        name: Name,
        file: FileText,
    },
    /// `SAVE value "file"`.
    Save {
        value: Expr,
        file: FileText,
    },
    /// `LOAD ALL "file"`.
    LoadAll {
        file: FileText,
    },
    /// `SAVE ALL "file"`.
    SaveAll {
        file: FileText,
    },
    /// `ATOMIC lets COMMIT`.
    Atomic {
        lets: Vec<Let>,
    },
    /// `EXPLAIN value`.
    Explain {
        value: Expr,
    },
}

impl Drop for Command {
    fn drop(self) {
        match self {
            Command::Relation {
                name: _,
                rows: _,
                rows_at: _,
                cols: _,
                cols_at: _,
                list: _,
            } => {}
            Command::Let { name: _, value: _ } => {}
            Command::Print { value: _ } => {}
            Command::List { value: _ } => {}
            Command::Count { value: _ } => {}
            Command::Typed { value: _ } => {}
            Command::Remove { at: _, name: _ } => {}
            Command::Snap { name: _ } => {}
            Command::At {
                at: _,
                name: _,
                value: _,
            } => {}
            Command::Load { name: _, file: _ } => {}
            Command::Save { value: _, file: _ } => {}
            Command::LoadAll { file: _ } => {}
            Command::SaveAll { file: _ } => {}
            Command::Atomic { lets: _ } => {}
            Command::Explain { value: _ } => {}
        }
    }
}

/// An item of a script.
pub enum Item {
    /// `name(params) = body`.
    Function {
        at: Place,
        name: Name,
        params: Vec<Name>,
        body: Expr,
    },
    /// `name(params) DECL decls BEG body RETURN result END`.
    Program {
        at: Place,
        name: Name,
        params: Vec<Name>,
        decls: Vec<Decl>,
        body: Vec<Stmt>,
        result: Expr,
    },
    /// A command.
    Command(Command),
}

impl Drop for Item {
    fn drop(self) {
        match self {
            Item::Function {
                at: _,
                name: _,
                params: _,
                body: _,
            } => {}
            Item::Program {
                at: _,
                name: _,
                params: _,
                decls: _,
                body: _,
                result: _,
            } => {}
            Item::Command(_) => {}
        }
    }
}

/// A script. Its items are on the heap.
#[derive(Drop)]
pub struct Script {
    pub items: Vec<Item>,
}
