// What is exported.
ghost use Rattle.std.specs.Prelude.{◌≡◌};
ghost use Rattle.wac_c.specs.Told.{limit_of, Graphs, Runs};

use crate::answer::{WacAnswer, c_answer, unknown};
use std::alloc::Global;
use wac_calls::{Composition, DEFAULT_LIMIT, Task, call, graph, word_of};

/// The limit of nested brackets that is meant: 0 stands for the usual one.
fn limit_of(limit: usize) -> usize
    ensures { result ≡ limit_of limit }
{
    if limit == 0 { DEFAULT_LIMIT } else { limit }
}

/// Puts into `out` what the word of a number makes of a text, or into `message` why it makes nothing of it.
///
/// To C it has no parameter `alloc`: memory comes from `malloc`, and goes back before the call returns.
#[unsafe(no_mangle)]
pub extern "C" fn wac_run(
    alloc: Global,
    word: u32,
    limit: usize,
    text: &[u8],
    out: &mut [u8],
    message: &mut [u8],
    answer: &mut WacAnswer,
)
    ensures { Runs word limit text.now answer.new out.old out.new message.old message.new }
{
    match word_of(word) {
        Some(word) => {
            let limit = limit_of(limit);
            *answer = c_answer(call(alloc, Task { word, limit }, text, out, message));
        }
        None => *answer = unknown(),
    }
}

/// Puts into `out` the graph of a document as a line of JSON, with the packages that are handed over, or into `message`
/// why there is none. To C it has no parameter `alloc` either.
#[unsafe(no_mangle)]
pub extern "C" fn wac_graph(
    alloc: Global,
    limit: usize,
    text: &[u8],
    packages: &[u8],
    out: &mut [u8],
    message: &mut [u8],
    answer: &mut WacAnswer,
)
    ensures { Graphs limit text.now packages.now answer.new out.old out.new message.old message.new }
{
    let composition = Composition { text, packages };
    *answer = c_answer(graph(alloc, limit_of(limit), composition, out, message));
}
