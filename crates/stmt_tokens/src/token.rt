use lake_types::{Listed, Words};

/// A word that the grammar names; case doesn't matter.
#[derive(Clone, Copy, Debug, PartialEq, Eq)]
pub enum Keyword {
    And,
    Default,
    False,
    From,
    Is,
    Not,
    Null,
    Or,
    RowId,
    Select,
    Set,
    Table,
    To,
    True,
    Values,
    Where,
    Add,
    Alter,
    At,
    Begin,
    BigInt,
    Blob,
    Boolean,
    Clean,
    Column,
    Commit,
    Compact,
    Create,
    Data,
    Date,
    Delete,
    Drop,
    Expire,
    Flush,
    Insert,
    Integer,
    Into,
    Rename,
    Rollback,
    Schema,
    SmallInt,
    Snapshots,
    TinyInt,
    Type,
    Update,
    Varchar,
    Version,
}

#[derive(Clone, Copy, Debug, PartialEq, Eq)]
pub enum Sign {
    LeftParen,
    RightParen,
    Comma,
    Dot,
    Semicolon,
    Star,
    Eq,
    Ne,
    Lt,
    Le,
    Gt,
    Ge,
    Arrow,
}

/// What a token is to the grammar.
#[derive(Clone, Copy, Debug, PartialEq, Eq)]
pub enum Kind {
    Keyword(Keyword),
    Sign(Sign),
    /// A word that is no keyword.
    Word,
    Quoted,
    Number,
    Text,
    Bytes,
    /// Bytes that are no token, to the line's end.
    Bad,
}

/// A token: what it is, and its text. The text of a word, keywords too, is the word as it stands; that
/// of a number its digits with its sign; of a quoted name or a text what it says, without its quotes;
/// of bytes their digits. A sign and a bad token have none.
#[derive(Debug, Drop)]
pub struct Token {
    pub kind: Kind,
    pub text: Words,
}

pub type TokenList = Listed<Token>;

/// The keywords; case doesn't matter.
pub const KEYWORDS: [(&str, Keyword); 47] = [
    ("AND", Keyword::And),
    ("DEFAULT", Keyword::Default),
    ("FALSE", Keyword::False),
    ("FROM", Keyword::From),
    ("IS", Keyword::Is),
    ("NOT", Keyword::Not),
    ("NULL", Keyword::Null),
    ("OR", Keyword::Or),
    ("ROWID", Keyword::RowId),
    ("SELECT", Keyword::Select),
    ("SET", Keyword::Set),
    ("TABLE", Keyword::Table),
    ("TO", Keyword::To),
    ("TRUE", Keyword::True),
    ("VALUES", Keyword::Values),
    ("WHERE", Keyword::Where),
    ("ADD", Keyword::Add),
    ("ALTER", Keyword::Alter),
    ("AT", Keyword::At),
    ("BEGIN", Keyword::Begin),
    ("BIGINT", Keyword::BigInt),
    ("BLOB", Keyword::Blob),
    ("BOOLEAN", Keyword::Boolean),
    ("CLEAN", Keyword::Clean),
    ("COLUMN", Keyword::Column),
    ("COMMIT", Keyword::Commit),
    ("COMPACT", Keyword::Compact),
    ("CREATE", Keyword::Create),
    ("DATA", Keyword::Data),
    ("DATE", Keyword::Date),
    ("DELETE", Keyword::Delete),
    ("DROP", Keyword::Drop),
    ("EXPIRE", Keyword::Expire),
    ("FLUSH", Keyword::Flush),
    ("INSERT", Keyword::Insert),
    ("INTEGER", Keyword::Integer),
    ("INTO", Keyword::Into),
    ("RENAME", Keyword::Rename),
    ("ROLLBACK", Keyword::Rollback),
    ("SCHEMA", Keyword::Schema),
    ("SMALLINT", Keyword::SmallInt),
    ("SNAPSHOTS", Keyword::Snapshots),
    ("TINYINT", Keyword::TinyInt),
    ("TYPE", Keyword::Type),
    ("UPDATE", Keyword::Update),
    ("VARCHAR", Keyword::Varchar),
    ("VERSION", Keyword::Version),
];
