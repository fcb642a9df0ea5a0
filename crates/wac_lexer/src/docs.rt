// Finds the documentation comments of a place.
ghost use Rattle.std.specs.Prelude.{◌≡◌, ◌++◌, IfOk, map, MatchOption, Some, None};
ghost use Rattle.std.specs.Str.{IsCharBoundary};
ghost use Rattle.wac_lexer.specs.Docs.{doc_text, doc_of_part, docs_at};
ghost use Rattle.wac_lexer.specs.Item.{doc_of};

use crate::comments::part_len;
use crate::lexer::Lexer;
use crate::span::SourceSpan;
use std::alloc::{AllocError, Global};

/// The text of a documentation comment, without its marks and the white space around it.
fn doc_text(comment: &str) -> Option<&str>
    ensures { MatchOption result (doc_text comment.now ≡ None) (λ text. doc_text comment.now ≡ Some text.now) }
{
    if let Some(text) = comment.strip_prefix("///") {
        return Some(text.trim());
    }
    let block = comment.strip_prefix("/**")?;
    let text = block.strip_suffix("*/")?;
    Some(text.trim())
}

/// Adds the blank or comment at a place, where it is a documentation comment.
fn add_doc<'a>(
    docs: &mut Vec<(&'a str, SourceSpan)>,
    start: usize,
    part: &'a str,
) -> Result<(), AllocError>
    ensures { IfOk result (λ _. map doc_of docs.new.items ≡ map doc_of docs.old.items ++ doc_of_part start part.now) }
{
    if let Some(text) = doc_text(part) {
        let span = SourceSpan::new(start, part.len());
        if docs.push((text, span)).is_err() {
            return Err(AllocError);
        }
    }
    Ok(())
}

/// The documentation comments between a place and the next item, each with the span of the whole comment.
fn docs_at<'a>(
    alloc: Global,
    source: &'a str,
    place: usize,
) -> Result<Vec<(&'a str, SourceSpan)>, AllocError>
    requires { IsCharBoundary source.now place }
    ensures { IfOk result (λ docs. map doc_of docs.items ≡ docs_at source.now place) }
{
    let mut docs = Vec::new(alloc);
    let mut start = place;
    while start < source.len() {
        let (_, rest) = source.split_at(start);
        let len = part_len(rest.as_bytes());
        if len == 0 {
            return Ok(docs);
        }
        let (part, _) = rest.split_at(len);
        add_doc(&mut docs, start, part)?;
        start += len;
    }
    Ok(docs)
}

impl<'a> Lexer<'a> {
    ghost use Rattle.std.specs.Prelude.{◌≡◌, IfOk, map};
    ghost use Rattle.wac_lexer.specs.Docs.{docs_at};
    ghost use Rattle.wac_lexer.specs.Item.{OnFirst, doc_of};
    ghost use Rattle.wac_lexer.specs.Reading.{left};

    /// The documentation comments after the last item, up to the next item or a comment without an end.
    ///
    /// `///x` and `/**x*/` give x without the white space around it, and the span of the whole comment. Nothing is
    /// consumed, so a second call gives the same. The docs after the last item can be read until `next` gives None,
    /// and not after that: the lexer is then at the end. The only error is out of memory.
    #[tactic(auto, unfolding(crate::specs::Reading::left))]
    pub fn comments(&self, alloc: Global) -> Result<Vec<(&'a str, SourceSpan)>, AllocError>
        ensures docs { IfOk result (λ v. map doc_of v.items ≡ docs_at self.now.source self.now.place) }
        ensures first { OnFirst (left self.now) (λ x. x.docs ≡ docs_at self.now.source self.now.place) }
    {
        docs_at(alloc, self.text(), self.place())
    }
}
