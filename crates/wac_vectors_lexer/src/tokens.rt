//! The vectors of the lexer: texts, and each token with its offset and length in bytes.

use std::process::Abort;
use wac_lexer::{Lexer, SourceSpan, Token};

/// Whether the items of a text are these tokens.
fn has_tokens(source: &str, tokens: &[(Token, usize, usize)]) -> bool {
    let Ok(mut lexer) = Lexer::new(source) else {
        return false;
    };
    for (token, offset, len) in tokens {
        if lexer.next() != Some((Ok(*token), SourceSpan::new(*offset, *len))) {
            return false;
        }
    }
    lexer.next() == None
}

/// Texts, and their tokens.
static TEXTS: [(&str, &[(Token, usize, usize)]); 5] = [
    // comments
    (
        "\n            //\n            // comment\n            /**/\n            /* a block comment */\n            /* a multi\n               line comment\n             */\n            /* a /* /* deeply */ nested */ block comment */\n            ",
        &[],
    ),
    // identifiers
    (
        "\n            foo\n            foo123\n            f-b\n            foo-bar123\n            foo0123-bar0123-baz0123\n            %interface\n            foo123-BAR\n            ",
        &[
            (Token::Ident, 13, 3),
            (Token::Ident, 29, 6),
            (Token::Ident, 48, 3),
            (Token::Ident, 64, 10),
            (Token::Ident, 87, 23),
            (Token::Ident, 123, 10),
            (Token::Ident, 146, 10),
        ],
    ),
    // strings
    (
        "\n            \"\"\n            \"foo\"\n            \"foo  bar\"\n            \"foo\n            bar\"\n            ",
        &[
            (Token::String, 13, 2),
            (Token::String, 28, 5),
            (Token::String, 46, 10),
            (Token::String, 69, 21),
        ],
    ),
    // keywords
    (
        "\n\
        import\n\
        with\n\
        type\n\
        tuple\n\
        list\n\
        option\n\
        result\n\
        borrow\n\
        resource\n\
        variant\n\
        record\n\
        flags\n\
        enum\n\
        func\n\
        static\n\
        constructor\n\
        u8\n\
        s8\n\
        u16\n\
        s16\n\
        u32\n\
        s32\n\
        u64\n\
        s64\n\
        f32\n\
        f64\n\
        char\n\
        bool\n\
        string\n\
        interface\n\
        world\n\
        export\n\
        new\n\
        let\n\
        use\n\
        include\n\
        as\n\
        package\n\
        targets\n\
        async\n\
        stream\n\
        future\n\
        error-context\n",
        &[
            (Token::ImportKeyword, 1, 6),
            (Token::WithKeyword, 8, 4),
            (Token::TypeKeyword, 13, 4),
            (Token::TupleKeyword, 18, 5),
            (Token::ListKeyword, 24, 4),
            (Token::OptionKeyword, 29, 6),
            (Token::ResultKeyword, 36, 6),
            (Token::BorrowKeyword, 43, 6),
            (Token::ResourceKeyword, 50, 8),
            (Token::VariantKeyword, 59, 7),
            (Token::RecordKeyword, 67, 6),
            (Token::FlagsKeyword, 74, 5),
            (Token::EnumKeyword, 80, 4),
            (Token::FuncKeyword, 85, 4),
            (Token::StaticKeyword, 90, 6),
            (Token::ConstructorKeyword, 97, 11),
            (Token::U8Keyword, 109, 2),
            (Token::S8Keyword, 112, 2),
            (Token::U16Keyword, 115, 3),
            (Token::S16Keyword, 119, 3),
            (Token::U32Keyword, 123, 3),
            (Token::S32Keyword, 127, 3),
            (Token::U64Keyword, 131, 3),
            (Token::S64Keyword, 135, 3),
            (Token::F32Keyword, 139, 3),
            (Token::F64Keyword, 143, 3),
            (Token::CharKeyword, 147, 4),
            (Token::BoolKeyword, 152, 4),
            (Token::StringKeyword, 157, 6),
            (Token::InterfaceKeyword, 164, 9),
            (Token::WorldKeyword, 174, 5),
            (Token::ExportKeyword, 180, 6),
            (Token::NewKeyword, 187, 3),
            (Token::LetKeyword, 191, 3),
            (Token::UseKeyword, 195, 3),
            (Token::IncludeKeyword, 199, 7),
            (Token::AsKeyword, 207, 2),
            (Token::PackageKeyword, 210, 7),
            (Token::TargetsKeyword, 218, 7),
            (Token::AsyncKeyword, 226, 5),
            (Token::StreamKeyword, 232, 6),
            (Token::FutureKeyword, 239, 6),
            (Token::ErrorContextKeyword, 246, 13),
        ],
    ),
    // symbols
    (
        ";{}:=()-><>_[]. ...,/@",
        &[
            (Token::Semicolon, 0, 1),
            (Token::OpenBrace, 1, 1),
            (Token::CloseBrace, 2, 1),
            (Token::Colon, 3, 1),
            (Token::Equals, 4, 1),
            (Token::OpenParen, 5, 1),
            (Token::CloseParen, 6, 1),
            (Token::Arrow, 7, 2),
            (Token::OpenAngle, 9, 1),
            (Token::CloseAngle, 10, 1),
            (Token::Underscore, 11, 1),
            (Token::OpenBracket, 12, 1),
            (Token::CloseBracket, 13, 1),
            (Token::Dot, 14, 1),
            (Token::Ellipsis, 16, 3),
            (Token::Comma, 19, 1),
            (Token::Slash, 20, 1),
            (Token::At, 21, 1),
        ],
    ),
];

/// Package paths, each with where it is in the text of them all.
static PATHS: [(&str, usize); 33] = [
    ("foo:bar/baz/qux/jam", 1),
    ("foo:bar:baz:qux/jam", 21),
    ("foo:bar/baz@0.0.4", 41),
    ("foo:bar/baz@1.2.3", 59),
    ("foo:bar/baz@10.20.30", 77),
    ("foo:bar/baz@1.1.2-prerelease+meta", 98),
    ("foo:bar/baz@1.1.2+meta", 132),
    ("foo:bar/baz@1.1.2+meta-valid", 155),
    ("foo:bar/baz@1.0.0-alpha", 184),
    ("foo:bar/baz@1.0.0-beta", 208),
    ("foo:bar/baz@1.0.0-alpha.beta", 231),
    ("foo:bar/baz@1.0.0-alpha.beta.1", 260),
    ("foo:bar/baz@1.0.0-alpha.1", 291),
    ("foo:bar/baz@1.0.0-alpha0.valid", 317),
    ("foo:bar/baz@1.0.0-alpha.0valid", 348),
    (
        "foo:bar/baz@1.0.0-alpha-a.b-c-somethinglong+build.1-aef.1-its-okay",
        379,
    ),
    ("foo:bar/baz@1.0.0-rc.1+build.1", 446),
    ("foo:bar/baz@2.0.0-rc.1+build.123", 477),
    ("foo:bar/baz@1.2.3-beta", 510),
    ("foo:bar/baz@10.2.3-DEV-SNAPSHOT", 533),
    ("foo:bar/baz@1.2.3-SNAPSHOT-123", 565),
    ("foo:bar/baz@1.0.0", 596),
    ("foo:bar/baz@2.0.0", 614),
    ("foo:bar/baz@1.1.7", 632),
    ("foo:bar/baz@2.0.0+build.1848", 650),
    ("foo:bar/baz@2.0.1-alpha.1227", 679),
    ("foo:bar/baz@1.0.0-alpha+beta", 708),
    ("foo:bar/baz@1.2.3----RC-SNAPSHOT.12.9.1--.12+788", 737),
    ("foo:bar/baz@1.2.3----R-S.12.9.1--.12+meta", 786),
    ("foo:bar/baz@1.2.3----RC-SNAPSHOT.12.9.1--.12", 828),
    ("foo:bar/baz@1.0.0+0.build.1-rc.10000aaa-kk-0.1", 873),
    (
        "foo:bar/baz@99999999999999999999999.999999999999999999.99999999999999999",
        920,
    ),
    ("foo:bar/baz@1.0.0-0A.is.legal", 993),
];

/// The text of them all.
static ALL_PATHS: &str = "\n\
    foo:bar/baz/qux/jam\n\
    foo:bar:baz:qux/jam\n\
    foo:bar/baz@0.0.4\n\
    foo:bar/baz@1.2.3\n\
    foo:bar/baz@10.20.30\n\
    foo:bar/baz@1.1.2-prerelease+meta\n\
    foo:bar/baz@1.1.2+meta\n\
    foo:bar/baz@1.1.2+meta-valid\n\
    foo:bar/baz@1.0.0-alpha\n\
    foo:bar/baz@1.0.0-beta\n\
    foo:bar/baz@1.0.0-alpha.beta\n\
    foo:bar/baz@1.0.0-alpha.beta.1\n\
    foo:bar/baz@1.0.0-alpha.1\n\
    foo:bar/baz@1.0.0-alpha0.valid\n\
    foo:bar/baz@1.0.0-alpha.0valid\n\
    foo:bar/baz@1.0.0-alpha-a.b-c-somethinglong+build.1-aef.1-its-okay\n\
    foo:bar/baz@1.0.0-rc.1+build.1\n\
    foo:bar/baz@2.0.0-rc.1+build.123\n\
    foo:bar/baz@1.2.3-beta\n\
    foo:bar/baz@10.2.3-DEV-SNAPSHOT\n\
    foo:bar/baz@1.2.3-SNAPSHOT-123\n\
    foo:bar/baz@1.0.0\n\
    foo:bar/baz@2.0.0\n\
    foo:bar/baz@1.1.7\n\
    foo:bar/baz@2.0.0+build.1848\n\
    foo:bar/baz@2.0.1-alpha.1227\n\
    foo:bar/baz@1.0.0-alpha+beta\n\
    foo:bar/baz@1.2.3----RC-SNAPSHOT.12.9.1--.12+788\n\
    foo:bar/baz@1.2.3----R-S.12.9.1--.12+meta\n\
    foo:bar/baz@1.2.3----RC-SNAPSHOT.12.9.1--.12\n\
    foo:bar/baz@1.0.0+0.build.1-rc.10000aaa-kk-0.1\n\
    foo:bar/baz@99999999999999999999999.999999999999999999.99999999999999999\n\
    foo:bar/baz@1.0.0-0A.is.legal\n";

/// Whether the items of a text are these paths, each where it is.
fn has_paths(source: &str, paths: &[(&str, usize)]) -> bool {
    let Ok(mut lexer) = Lexer::new(source) else {
        return false;
    };
    for (path, offset) in paths {
        let span = SourceSpan::new(*offset, path.len());
        if lexer.next() != Some((Ok(Token::PackagePath), span)) {
            return false;
        }
    }
    lexer.next() == None
}

/// Asserts that each text has the tokens of its row.
fn tokens_are(rt: &impl Abort, rows: &[(&str, &[(Token, usize, usize)])]) {
    for (source, tokens) in rows {
        assert!(rt; has_tokens(source, tokens), "of {source}");
    }
}

#[test]
fn tokens_of_texts(rt: HostRuntime) {
    tokens_are(&rt, &TEXTS);
    assert!(rt; has_paths(ALL_PATHS, &PATHS), "paths");
}
