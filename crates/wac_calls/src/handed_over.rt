// The packages that are handed over.
use crate::frames::HEAD;
use crate::packages::is_component;
use std::alloc::{AllocError, AllocFailed, Global};
use wac_components_words::is_key;
use wac_lexer::SourceSpan;

/// A component, and the key of its package.
#[derive(Drop)]
pub(crate) struct Component<'b> {
    /// The key, as `a:b@1.0.0`.
    pub(crate) key: &'b str,
    pub(crate) bytes: &'b [u8],
    /// Where its bytes are in the buffer.
    pub(crate) place: SourceSpan,
}

/// Why a component makes no package.
#[derive(Debug, Drop)]
pub(crate) enum ComponentFault {
    /// It has no key before it, it can't be read, or its package is there already.
    Bad {
        /// The place that is at fault, in bytes of the buffer.
        span: SourceSpan,
        /// What is wrong.
        message: String,
    },
    /// Memory ran out.
    Memory,
}

impl From<AllocError> for ComponentFault {
    ghost use Rattle.std.specs.Prelude.{◌≡◌};
    ghost use Rattle.wac_calls.specs.declared.handed_over.ComponentFault.TheVariants as faults;

    ghost from_gives = { λ _ e. e ≡ faults.Memory };

    fn from(_error: AllocError) -> ComponentFault {
        ComponentFault::Memory
    }
}

impl<T: Drop> From<AllocFailed<T>> for ComponentFault {
    ghost use Rattle.std.specs.Prelude.{◌≡◌};
    ghost use Rattle.wac_calls.specs.declared.handed_over.ComponentFault.TheVariants as faults;

    ghost from_gives = { λ _ e. e ≡ faults.Memory };

    fn from(_error: AllocFailed<T>) -> ComponentFault {
        ComponentFault::Memory
    }
}

/// The texts and the components of a buffer.
#[derive(Drop)]
pub(crate) struct HandedOver<'b> {
    /// Texts that declare packages.
    pub(crate) texts: Vec<&'b str>,
    /// Where the texts are in the buffer.
    places: Vec<SourceSpan>,
    /// The keys of components, the components, and where these are in the buffer.
    keys: Vec<&'b str>,
    pub(crate) components: Vec<&'b [u8]>,
    component_places: Vec<SourceSpan>,
}

/// What frames have that follow one another from the first byte of a buffer on. The text before a component is its key.
pub(crate) fn handed_over<'b>(
    alloc: Global,
    frames: &[&'b [u8]],
) -> Result<HandedOver<'b>, ComponentFault> {
    let mut texts = Vec::new(alloc);
    let mut places = Vec::new(alloc);
    let mut keys = Vec::new(alloc);
    let mut components = Vec::new(alloc);
    let mut component_places = Vec::new(alloc);
    let mut start = 0usize;
    for (number, frame) in frames.iter().enumerate() {
        start = start.saturating_add(HEAD);
        let place = SourceSpan::new(start, frame.len());
        if is_component(frame) {
            keys.push(key_before(alloc, frames, number, place)?)?;
            components.push(*frame)?;
            component_places.push(place)?;
        } else if !is_before_component(frames, number) {
            texts.push(text_of(frame))?;
            places.push(place)?;
        }
        start = start.saturating_add(frame.len());
    }
    Ok(HandedOver {
        texts,
        places,
        keys,
        components,
        component_places,
    })
}

/// Whether the frame after this one has a component.
fn is_before_component(frames: &[&[u8]], number: usize) -> bool {
    match frames.get(number.saturating_add(1)) {
        Some(next) => is_component(next),
        None => false,
    }
}

/// The key of a component, which is the frame before it.
fn key_before<'b>(
    alloc: Global,
    frames: &[&'b [u8]],
    number: usize,
    place: SourceSpan,
) -> Result<&'b str, ComponentFault> {
    match frames.get(number.wrapping_sub(1)) {
        Some(before) if is_key(text_of(before)) => Ok(text_of(before)),
        _ => Err(unnamed(alloc, place)?),
    }
}

/// The text of a frame. Each is one that was tested.
fn text_of(frame: &[u8]) -> &str {
    match str::from_utf8(frame) {
        Ok(text) => text,
        Err(_) => "",
    }
}

/// A place of a list. Each number that is asked for has one.
fn place_at(places: &[SourceSpan], number: usize) -> SourceSpan {
    match places.get(number) {
        Some(place) => *place,
        None => SourceSpan::new(0, 0),
    }
}

impl HandedOver<'_> {
    /// Where the text of a number is in the buffer.
    pub(crate) fn place_of(&self, text: usize) -> SourceSpan {
        place_at(self.places.as_slice(), text)
    }

    /// Where the component of a number is in the buffer.
    pub(crate) fn component_place(&self, component: usize) -> SourceSpan {
        place_at(self.component_places.as_slice(), component)
    }

    /// The key of the component of a number.
    pub(crate) fn key(&self, component: usize) -> &str {
        match self.keys.get(component) {
            Some(key) => key,
            None => "",
        }
    }
}

/// That a component has no key.
fn unnamed(alloc: Global, span: SourceSpan) -> Result<ComponentFault, AllocError> {
    let message = String::from_str(
        alloc,
        "the frame before a component is the name of its package, as `a:b@1.0.0`",
    )?;
    Ok(ComponentFault::Bad { span, message })
}
