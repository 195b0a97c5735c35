//! What the system words do: families, each of words that are about one thing and reach the same.
//! Rule: LANGUAGE, All words.
ghost use Rattle.std.specs.Prelude.{◌≡◌};
ghost use Rattle.system_words.specs.Rows.{is_immediate, is_compile_only};

/// How the text interpreter may use a system word.
#[derive(Clone, Copy)]
pub enum Mark {
    Plain,
    /// It is run even while a body is compiled.
    Immediate,
    /// It makes sense only while a body is compiled, so the text interpreter never runs it while it interprets.
    CompileOnly,
    /// Both.
    ImmediateOnly,
}

impl Mark {
    /// Whether the text interpreter runs the word even while a body is compiled: the mark `I` of its row.
    pub fn is_immediate(self) -> bool
        ensures { result ≡ is_immediate self }
    {
        match self {
            Mark::Immediate | Mark::ImmediateOnly => true,
            Mark::Plain | Mark::CompileOnly => false,
        }
    }

    /// Whether the word makes sense only while a body is compiled: the mark `C` of its row.
    pub fn is_compile_only(self) -> bool
        ensures { result ≡ is_compile_only self }
    {
        match self {
            Mark::CompileOnly | Mark::ImmediateOnly => true,
            Mark::Plain | Mark::Immediate => false,
        }
    }
}

/// What a system word does.
#[derive(Clone, Copy)]
pub enum Meaning {
    /// The machine does it by itself.
    Runs(Own),
    /// The machine asks for it.
    Asks(Service),
    /// `EXIT`, which is only ever added to a body.
    Exits,
    /// `COMPILE`, which is only ever added to a body.
    Marks,
}

/// What the machine does by itself. It reaches both stacks and data space.
#[derive(Clone, Copy)]
pub enum Own {
    One(Unary),
    Two(Binary),
    Division(Divide),
    Double(Wide),
    Stack(Shuffle),
    Space(MemoryWord),
    OnList(Return),
    /// Leaves this cell: the address of a system cell, or of the text input buffer.
    Constant(u16),
    /// Sets the system cell at this address to this value.
    SetCell(u16, u16),
    /// `FORTH-83`
    Nothing,
    /// `QUIT`
    Quit,
    /// `ABORT`
    Abort,
}

/// What the machine asks for.
#[derive(Clone, Copy)]
pub enum Service {
    OnTerminal(TerminalWord),
    OnPicture(PictureWord),
    OnText(TextWord),
    OnName(NameWord),
    OnLexicon(LexiconWord),
    OnDefinition(DefinitionWord),
    OnBlocks(BlockWord),
    /// `EXECUTE`, which runs a word.
    Execute,
    /// `LOAD`, which runs the text of a block.
    Load,
}

/// ( w1 -- w2 )
#[derive(Clone, Copy)]
pub enum Unary {
    /// `0<`
    Below,
    /// `0=`
    Zero,
    /// `0>`
    Above,
    /// `1+`
    OneMore,
    /// `1-`
    OneLess,
    /// `2+`
    TwoMore,
    /// `2-`
    TwoLess,
    /// `2/`
    Half,
    /// `ABS`
    Absolute,
    /// `NEGATE`
    Negate,
    /// `NOT`
    Invert,
}

/// ( w1 w2 -- w3 )
#[derive(Clone, Copy)]
pub enum Binary {
    /// `*`
    Multiply,
    /// `+`
    Add,
    /// `-`
    Subtract,
    /// `<`
    Less,
    /// `=`
    Equal,
    /// `>`
    Greater,
    /// `AND`
    And,
    /// `MAX`
    Greatest,
    /// `MIN`
    Least,
    /// `OR`
    Or,
    /// `U<`
    UnsignedLess,
    /// `XOR`
    Xor,
}

/// Quotients and remainders, floored but for `UM/MOD`, which is unsigned.
#[derive(Clone, Copy)]
pub enum Divide {
    /// `*/`
    Scaled,
    /// `*/MOD`
    ScaledBoth,
    /// `/`
    Quotient,
    /// `/MOD`
    Both,
    /// `MOD`
    Remainder,
    /// `UM/MOD`
    UnsignedDouble,
}

/// Words on doubles.
#[derive(Clone, Copy)]
pub enum Wide {
    /// `D+`
    WideAdd,
    /// `D<`
    WideLess,
    /// `DNEGATE`
    WideNegate,
    /// `UM*`
    WideProduct,
}

/// Words on the cells of the data stack.
#[derive(Clone, Copy)]
pub enum Shuffle {
    /// `?DUP`
    DupNonzero,
    /// `DEPTH`
    Depth,
    /// `DROP`
    Drop,
    /// `DUP`
    Dup,
    /// `OVER`
    Over,
    /// `PICK`
    Pick,
    /// `ROLL`
    Roll,
    /// `ROT`
    Rotate,
    /// `SWAP`
    Swap,
}

/// Words on data space.
#[derive(Clone, Copy)]
pub enum MemoryWord {
    /// `!`
    Set,
    /// `+!`
    AddTo,
    /// `@`
    Fetch,
    /// `C!`
    SetByte,
    /// `C@`
    FetchByte,
    /// `CMOVE`
    MoveUp,
    /// `CMOVE>`
    MoveDown,
    /// `COUNT`
    Count,
    /// `FILL`
    Fill,
    /// `-TRAILING`
    Trailing,
}

/// Words on what the running body has put aside.
#[derive(Clone, Copy)]
pub enum Return {
    /// `>R`
    ToReturn,
    /// `I`
    Index,
    /// `J`
    OuterIndex,
    /// `R>`
    FromReturn,
    /// `R@`
    CopyReturn,
}

/// Words that print, or read the input after the line.
#[derive(Clone, Copy)]
pub enum TerminalWord {
    /// `CR`
    NewLine,
    /// `EMIT`
    Emit,
    /// `EXPECT`
    Expect,
    /// `KEY`
    Key,
    /// `SPACE`
    Blank,
    /// `SPACES`
    Blanks,
    /// `TYPE`
    TypeText,
    /// `.`
    Dot,
    /// `.(`
    PrintText,
    /// `U.`
    UnsignedDot,
}

/// Words on the picture of a number, and `CONVERT`, which reads a number.
#[derive(Clone, Copy)]
pub enum PictureWord {
    /// `#`
    Digit,
    /// `#>`
    FinishPicture,
    /// `#S`
    Digits,
    /// `<#`
    BeginPicture,
    /// `CONVERT`
    Convert,
    /// `HOLD`
    HoldByte,
    /// `SIGN`
    Sign,
}

/// Words that take a text from the stream, or with `WORD` a word. The stream may lie on the device.
#[derive(Clone, Copy)]
pub enum TextWord {
    /// `(`
    Comment,
    /// `WORD`
    ParseWord,
    /// `."`
    DotQuote,
    /// `ABORT"`
    AbortQuote,
}

/// Words that take a name from the stream, which may lie on the device.
#[derive(Clone, Copy)]
pub enum NameWord {
    /// `'`
    Tick,
    /// `FORGET`
    Forget,
    /// `:`
    Colon,
    /// `CONSTANT`
    MakeConstant,
    /// `CREATE`
    Create,
    /// `VARIABLE`
    Variable,
    /// `VOCABULARY`
    MakeVocabulary,
    /// `[']`
    CompileTick,
    /// `[COMPILE]`
    BracketCompile,
}

/// Words on the lexicon and `HERE`, which take nothing from the stream.
#[derive(Clone, Copy)]
pub enum LexiconWord {
    /// `>BODY`
    ToBody,
    /// `DEFINITIONS`
    Definitions,
    /// `FIND`
    Find,
    /// `FORTH`
    Forth,
    /// `HERE`
    Here,
    /// `PAD`
    Pad,
    /// `,`
    Comma,
    /// `ALLOT`
    Allot,
    /// `IMMEDIATE`
    MakeImmediate,
}

/// Words on the open definition.
#[derive(Clone, Copy)]
pub enum DefinitionWord {
    /// `;`
    Semicolon,
    /// `LITERAL`
    Literal,
    Build(Structure),
}

/// A structure word, and `DOES>`.
#[derive(Clone, Copy)]
pub enum Structure {
    /// `+LOOP`
    PlusLoop,
    /// `BEGIN`
    Begin,
    /// `DO`
    Do,
    /// `DOES>`
    Does,
    /// `ELSE`
    Else,
    /// `IF`
    If,
    /// `LEAVE`
    Leave,
    /// `LOOP`
    Loop,
    /// `REPEAT`
    Repeat,
    /// `THEN`
    Then,
    /// `UNTIL`
    Until,
    /// `WHILE`
    While,
}

/// Words on blocks, which lie on the device.
#[derive(Clone, Copy)]
pub enum BlockWord {
    /// `BLOCK`
    Block,
    /// `BUFFER`
    Buffer,
    /// `FLUSH`
    Flush,
    /// `SAVE-BUFFERS`
    SaveBuffers,
    /// `UPDATE`
    Update,
}
