//! The rows, in the order of the tokens.
//! Rule: LANGUAGE, All words.

ghost use Rattle.std.specs.Prelude.{◌≡◌, map, length};
ghost use Rattle.system_words.specs.Rows.{row_of, rows, count};

use crate::words::Binary::*;
use crate::words::BlockWord::*;
use crate::words::DefinitionWord::*;
use crate::words::Divide::*;
use crate::words::LexiconWord::*;
use crate::words::Mark::*;
use crate::words::Meaning::*;
use crate::words::MemoryWord::*;
use crate::words::NameWord::*;
use crate::words::Own::*;
use crate::words::PictureWord::*;
use crate::words::Return::*;
use crate::words::Service::*;
use crate::words::Shuffle::*;
use crate::words::Structure::*;
use crate::words::TerminalWord::*;
use crate::words::TextWord::*;
use crate::words::Unary::*;
use crate::words::Wide::*;
use crate::words::{Mark, Meaning};

/// A word's name, how the text interpreter may use it, and what it does.
pub type Row = (&'static [u8], Mark, Meaning);

/// How many system words there are, which is the token of the last one.
pub const COUNT: u16 = 132;

/// All 132 words in the order of their tokens: the word of token t, which is 1 to 132, stands at place t - 1.
#[inline]
pub fn all() -> &'static [Row]
    ensures rows { map (λ row. row_of row.0.now row.1 row.2) result.now ≡ rows }
    ensures count { length result.now ≡ count }
{
    &ROWS
}

static ROWS: [Row; COUNT as usize] = [
    (b"!", Plain, Runs(Space(Set))),
    (b"*", Plain, Runs(Two(Multiply))),
    (b"*/", Plain, Runs(Division(Scaled))),
    (b"*/MOD", Plain, Runs(Division(ScaledBoth))),
    (b"+", Plain, Runs(Two(Add))),
    (b"+!", Plain, Runs(Space(AddTo))),
    (b"-", Plain, Runs(Two(Subtract))),
    (b"/", Plain, Runs(Division(Quotient))),
    (b"/MOD", Plain, Runs(Division(Both))),
    (b"0<", Plain, Runs(One(Below))),
    (b"0=", Plain, Runs(One(Zero))),
    (b"0>", Plain, Runs(One(Above))),
    (b"1+", Plain, Runs(One(OneMore))),
    (b"1-", Plain, Runs(One(OneLess))),
    (b"2+", Plain, Runs(One(TwoMore))),
    (b"2-", Plain, Runs(One(TwoLess))),
    (b"2/", Plain, Runs(One(Half))),
    (b"<", Plain, Runs(Two(Less))),
    (b"=", Plain, Runs(Two(Equal))),
    (b">", Plain, Runs(Two(Greater))),
    (b">R", CompileOnly, Runs(OnList(ToReturn))),
    (b"?DUP", Plain, Runs(Stack(DupNonzero))),
    (b"@", Plain, Runs(Space(Fetch))),
    (b"ABS", Plain, Runs(One(Absolute))),
    (b"AND", Plain, Runs(Two(And))),
    (b"C!", Plain, Runs(Space(SetByte))),
    (b"C@", Plain, Runs(Space(FetchByte))),
    (b"CMOVE", Plain, Runs(Space(MoveUp))),
    (b"CMOVE>", Plain, Runs(Space(MoveDown))),
    (b"COUNT", Plain, Runs(Space(Count))),
    (b"D+", Plain, Runs(Double(WideAdd))),
    (b"D<", Plain, Runs(Double(WideLess))),
    (b"DEPTH", Plain, Runs(Stack(Depth))),
    (b"DNEGATE", Plain, Runs(Double(WideNegate))),
    (b"DROP", Plain, Runs(Stack(Drop))),
    (b"DUP", Plain, Runs(Stack(Dup))),
    (b"EXECUTE", Plain, Asks(Execute)),
    (b"EXIT", CompileOnly, Exits),
    (b"FILL", Plain, Runs(Space(Fill))),
    (b"I", CompileOnly, Runs(OnList(Index))),
    (b"J", CompileOnly, Runs(OnList(OuterIndex))),
    (b"MAX", Plain, Runs(Two(Greatest))),
    (b"MIN", Plain, Runs(Two(Least))),
    (b"MOD", Plain, Runs(Division(Remainder))),
    (b"NEGATE", Plain, Runs(One(Negate))),
    (b"NOT", Plain, Runs(One(Invert))),
    (b"OR", Plain, Runs(Two(Or))),
    (b"OVER", Plain, Runs(Stack(Over))),
    (b"PICK", Plain, Runs(Stack(Pick))),
    (b"R>", CompileOnly, Runs(OnList(FromReturn))),
    (b"R@", CompileOnly, Runs(OnList(CopyReturn))),
    (b"ROLL", Plain, Runs(Stack(Roll))),
    (b"ROT", Plain, Runs(Stack(Rotate))),
    (b"SWAP", Plain, Runs(Stack(Swap))),
    (b"U<", Plain, Runs(Two(UnsignedLess))),
    (b"UM*", Plain, Runs(Double(WideProduct))),
    (b"UM/MOD", Plain, Runs(Division(UnsignedDouble))),
    (b"XOR", Plain, Runs(Two(Xor))),
    (b"BLOCK", Plain, Asks(OnBlocks(Block))),
    (b"BUFFER", Plain, Asks(OnBlocks(Buffer))),
    (b"CR", Plain, Asks(OnTerminal(NewLine))),
    (b"EMIT", Plain, Asks(OnTerminal(Emit))),
    (b"EXPECT", Plain, Asks(OnTerminal(Expect))),
    (b"FLUSH", Plain, Asks(OnBlocks(Flush))),
    (b"KEY", Plain, Asks(OnTerminal(Key))),
    (b"SAVE-BUFFERS", Plain, Asks(OnBlocks(SaveBuffers))),
    (b"SPACE", Plain, Asks(OnTerminal(Blank))),
    (b"SPACES", Plain, Asks(OnTerminal(Blanks))),
    (b"TYPE", Plain, Asks(OnTerminal(TypeText))),
    (b"UPDATE", Plain, Asks(OnBlocks(Update))),
    (b"#", Plain, Asks(OnPicture(Digit))),
    (b"#>", Plain, Asks(OnPicture(FinishPicture))),
    (b"#S", Plain, Asks(OnPicture(Digits))),
    (b"#TIB", Plain, Runs(Constant(24))),
    (b"'", Plain, Asks(OnName(Tick))),
    (b"(", Immediate, Asks(OnText(Comment))),
    (b"-TRAILING", Plain, Runs(Space(Trailing))),
    (b".", Plain, Asks(OnTerminal(Dot))),
    (b".(", Immediate, Asks(OnTerminal(PrintText))),
    (b"<#", Plain, Asks(OnPicture(BeginPicture))),
    (b">BODY", Plain, Asks(OnLexicon(ToBody))),
    (b">IN", Plain, Runs(Constant(20))),
    (b"ABORT", Plain, Runs(Abort)),
    (b"BASE", Plain, Runs(Constant(16))),
    (b"BLK", Plain, Runs(Constant(22))),
    (b"CONVERT", Plain, Asks(OnPicture(Convert))),
    (b"DECIMAL", Plain, Runs(SetCell(16, 10))),
    (b"DEFINITIONS", Plain, Asks(OnLexicon(Definitions))),
    (b"FIND", Plain, Asks(OnLexicon(Find))),
    (b"FORGET", Plain, Asks(OnName(Forget))),
    (b"FORTH", Plain, Asks(OnLexicon(Forth))),
    (b"FORTH-83", Plain, Runs(Nothing)),
    (b"HERE", Plain, Asks(OnLexicon(Here))),
    (b"HOLD", Plain, Asks(OnPicture(HoldByte))),
    (b"LOAD", Plain, Asks(Load)),
    (b"PAD", Plain, Asks(OnLexicon(Pad))),
    (b"QUIT", Plain, Runs(Quit)),
    (b"SIGN", Plain, Asks(OnPicture(Sign))),
    (b"SPAN", Plain, Runs(Constant(26))),
    (b"TIB", Plain, Runs(Constant(256))),
    (b"U.", Plain, Asks(OnTerminal(UnsignedDot))),
    (b"WORD", Plain, Asks(OnText(ParseWord))),
    (b"+LOOP", ImmediateOnly, Asks(OnDefinition(Build(PlusLoop)))),
    (b",", Plain, Asks(OnLexicon(Comma))),
    (b".\"", ImmediateOnly, Asks(OnText(DotQuote))),
    (b":", Plain, Asks(OnName(Colon))),
    (b";", ImmediateOnly, Asks(OnDefinition(Semicolon))),
    (b"ABORT\"", ImmediateOnly, Asks(OnText(AbortQuote))),
    (b"ALLOT", Plain, Asks(OnLexicon(Allot))),
    (b"BEGIN", ImmediateOnly, Asks(OnDefinition(Build(Begin)))),
    (b"COMPILE", CompileOnly, Marks),
    (b"CONSTANT", Plain, Asks(OnName(MakeConstant))),
    (b"CREATE", Plain, Asks(OnName(Create))),
    (b"DO", ImmediateOnly, Asks(OnDefinition(Build(Do)))),
    (b"DOES>", ImmediateOnly, Asks(OnDefinition(Build(Does)))),
    (b"ELSE", ImmediateOnly, Asks(OnDefinition(Build(Else)))),
    (b"IF", ImmediateOnly, Asks(OnDefinition(Build(If)))),
    (b"IMMEDIATE", Plain, Asks(OnLexicon(MakeImmediate))),
    (b"LEAVE", ImmediateOnly, Asks(OnDefinition(Build(Leave)))),
    (b"LITERAL", ImmediateOnly, Asks(OnDefinition(Literal))),
    (b"LOOP", ImmediateOnly, Asks(OnDefinition(Build(Loop)))),
    (b"REPEAT", ImmediateOnly, Asks(OnDefinition(Build(Repeat)))),
    (b"STATE", Plain, Runs(Constant(18))),
    (b"THEN", ImmediateOnly, Asks(OnDefinition(Build(Then)))),
    (b"UNTIL", ImmediateOnly, Asks(OnDefinition(Build(Until)))),
    (b"VARIABLE", Plain, Asks(OnName(Variable))),
    (b"VOCABULARY", Plain, Asks(OnName(MakeVocabulary))),
    (b"WHILE", ImmediateOnly, Asks(OnDefinition(Build(While)))),
    (b"[", Immediate, Runs(SetCell(18, 0))),
    (b"[']", ImmediateOnly, Asks(OnName(CompileTick))),
    (b"[COMPILE]", ImmediateOnly, Asks(OnName(BracketCompile))),
    (b"]", Plain, Runs(SetCell(18, 65535))),
];
