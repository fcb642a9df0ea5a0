//! Paths of packages: their names and segments, and the spans of these.

use std::alloc::Global;
use wac_ast_base::{PackagePath, Parse, SegmentSpans};
use wac_lexer::{Lexer, SourceSpan};

/// The path that a text is.
fn path_of(alloc: Global, source: &str) -> Option<PackagePath<'_>> {
    let Ok(mut lexer) = Lexer::new(source) else {
        return None;
    };
    match Parse::parse(alloc, &mut lexer) {
        Ok(path) => Some(path),
        Err(_) => None,
    }
}

/// Whether the path that a text is is the one of the test.
fn is_path(alloc: Global, source: &str) -> bool {
    match path_of(alloc, source) {
        Some(path) => {
            path.name == "%c:d"
                && path.segments == "e/%f"
                && path.package_name_span() == SourceSpan::new(0, 4)
                && path.version.is_some()
        }
        None => false,
    }
}

/// The segments of the path that a text is. The path is dropped before they are read: they live as long as the source.
fn segments(alloc: Global, source: &str) -> Option<SegmentSpans<'_>> {
    match path_of(alloc, source) {
        Some(path) => Some(path.segment_spans()),
        None => None,
    }
}

/// Whether segments are those of the test.
fn are_segments(segments: Option<SegmentSpans<'_>>) -> bool {
    match segments {
        Some(mut segments) => {
            segments.next() == Some(("e", SourceSpan::new(5, 1)))
                && segments.next() == Some(("%f", SourceSpan::new(7, 2)))
                && segments.next() == None
        }
        None => false,
    }
}

#[test]
fn names_and_segments(rt: HostRuntime) {
    let source = "%c:d/e/%f@1.0.0";
    assert!(rt; is_path(rt.alloc(), source), "of {source}");
    assert!(rt; are_segments(segments(rt.alloc(), source)), "of {source}");
}
