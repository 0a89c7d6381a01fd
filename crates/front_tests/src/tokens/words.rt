//! Every keyword and every mark.

use super::*;

#[test]
fn gives_each_keyword_and_each_mark(rt: HostRuntime) -> Result<(), Fail> {
    const KEYWORDS: [(&[u8], Keyword); 32] = [
        (b"int", Keyword::Int),
        (b"char", Keyword::Char),
        (b"void", Keyword::Void),
        (b"struct", Keyword::Struct),
        (b"typedef", Keyword::Typedef),
        (b"if", Keyword::If),
        (b"else", Keyword::Else),
        (b"while", Keyword::While),
        (b"do", Keyword::Do),
        (b"for", Keyword::For),
        (b"break", Keyword::Break),
        (b"continue", Keyword::Continue),
        (b"return", Keyword::Return),
        (b"sizeof", Keyword::Sizeof),
        (b"auto", Keyword::Auto),
        (b"case", Keyword::Case),
        (b"const", Keyword::Const),
        (b"default", Keyword::Default),
        (b"double", Keyword::Double),
        (b"enum", Keyword::Enum),
        (b"extern", Keyword::Extern),
        (b"float", Keyword::Float),
        (b"goto", Keyword::Goto),
        (b"long", Keyword::Long),
        (b"register", Keyword::Register),
        (b"short", Keyword::Short),
        (b"signed", Keyword::Signed),
        (b"static", Keyword::Static),
        (b"switch", Keyword::Switch),
        (b"union", Keyword::Union),
        (b"unsigned", Keyword::Unsigned),
        (b"volatile", Keyword::Volatile),
    ];
    const MARKS: [(&[u8], Mark); 45] = [
        (b"(", Mark::LeftParenthesis),
        (b")", Mark::RightParenthesis),
        (b"{", Mark::LeftBrace),
        (b"}", Mark::RightBrace),
        (b"[", Mark::LeftBracket),
        (b"]", Mark::RightBracket),
        (b";", Mark::Semicolon),
        (b",", Mark::Comma),
        (b".", Mark::Dot),
        (b"->", Mark::Arrow),
        (b"?", Mark::Question),
        (b":", Mark::Colon),
        (b"=", Mark::Assign),
        (b"==", Mark::Equal),
        (b"!=", Mark::NotEqual),
        (b"<", Mark::Less),
        (b">", Mark::Greater),
        (b"<=", Mark::LessEqual),
        (b">=", Mark::GreaterEqual),
        (b"<<", Mark::ShiftLeft),
        (b">>", Mark::ShiftRight),
        (b"+", Mark::Plus),
        (b"-", Mark::Minus),
        (b"*", Mark::Star),
        (b"/", Mark::Slash),
        (b"%", Mark::Percent),
        (b"&", Mark::Ampersand),
        (b"|", Mark::Bar),
        (b"^", Mark::Caret),
        (b"~", Mark::Tilde),
        (b"!", Mark::Exclamation),
        (b"&&", Mark::LogicalAnd),
        (b"||", Mark::LogicalOr),
        (b"++", Mark::Increment),
        (b"--", Mark::Decrement),
        (b"+=", Mark::PlusAssign),
        (b"-=", Mark::MinusAssign),
        (b"*=", Mark::StarAssign),
        (b"/=", Mark::SlashAssign),
        (b"%=", Mark::PercentAssign),
        (b"&=", Mark::AmpersandAssign),
        (b"|=", Mark::BarAssign),
        (b"^=", Mark::CaretAssign),
        (b"<<=", Mark::ShiftLeftAssign),
        (b">>=", Mark::ShiftRightAssign),
    ];
    for (source, keyword) in &KEYWORDS {
        assert!(rt; keyword.text() == *source);
        expect_kinds(&rt, rt.alloc(), source, &[Want::Word(*keyword)])?;
    }
    for (source, mark) in &MARKS {
        assert!(rt; mark.text() == *source);
        expect_kinds(&rt, rt.alloc(), source, &[Want::Mark(*mark)])?;
    }
    Ok(())
}
