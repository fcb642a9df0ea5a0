//! The segments of paths.

ghost use Rattle.std.specs.Prelude.{◌≡◌};
ghost use Rattle.wac_ast_grammar.specs.Segments.{segments_from};

use std::marker::Model;
use wac_lexer::SourceSpan;

/// Goes over the segments of a path in order, each with its span.
///
/// A contract sees the list of those that are left.
#[derive(Drop)]
pub struct SegmentSpans<'a> {
    rest: Option<&'a str>,
    offset: usize,
}

impl<'a> Model for SegmentSpans<'a> {
    ghost use Rattle.std.specs.Prelude.{List, ℕ, option_map};
    ghost use Rattle.wac_lexer.specs.Span.{Span};
    ghost use Rattle.wac_ast_grammar.specs.Segments.{segments_left};

    ghost Value = { List (List ℕ × Span) };

    ghost view = { λ s. segments_left s.offset (option_map (λ t. t.now) s.rest) };

    ghost invariant = { λ s. Unit {0} };
}

impl<'a> SegmentSpans<'a> {
    /// The segments of a text that begins at an offset.
    pub(crate) fn new(text: &'a str, offset: usize) -> Self
        ensures { result ≡ segments_from offset text.now }
    {
        SegmentSpans {
            rest: Some(text),
            offset,
        }
    }
}

impl<'a> Iterator for SegmentSpans<'a> {
    type Item = (&'a str, SourceSpan);

    ghost use Rattle.std.specs.Iterator.{YieldsFirstBy, item_count};

    ghost next_gives = { YieldsFirstBy (λ x. (x.0.now, x.1)) (λ s. s) };

    ghost remaining = { item_count (λ s. s) };

    #[tactic(auto, using(crate::proofs::PathParts::first_segment, crate::proofs::PathParts::one_segment))]
    fn next(&mut self) -> Option<(&'a str, SourceSpan)> {
        let text = self.rest?;
        let offset = self.offset;
        match text.split_once('/') {
            Some((segment, others)) => {
                self.rest = Some(others);
                self.offset = offset.saturating_add(segment.len()).saturating_add(1);
                Some((segment, SourceSpan::new(offset, segment.len())))
            }
            None => {
                self.rest = None;
                Some((text, SourceSpan::new(offset, text.len())))
            }
        }
    }
}
