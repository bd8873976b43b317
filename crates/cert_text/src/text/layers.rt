//! Reading labels and layers.
ghost use Rattle.std.specs.Prelude.{◌≡◌};
ghost use Rattle.rule_core.specs.declared.numbers.TheConstants.{MOST_NUMBERS};
ghost use Rattle.cert_text.specs.Text.Reading.{Gives, numbers_at, label_at, labels_at, layer_head_at, layer_at, layers_at};

use crate::cert::{CertLabel, CertLabels, CertLayers};
use crate::text::fault::Stop;
use crate::text::words::{dash_or_number, number, strip, word};
use rule_core::{MOST_NUMBERS, Numbers};
use std::alloc::Global;

/// The numbers of a state, each after a space, at most `MOST_NUMBERS` of them.
fn numbers(alloc: Global, bytes: &[u8]) -> Result<(Numbers, &[u8]), Stop>
    ensures { Gives (λ x. (x.0, x.1.now)) result (numbers_at MOST_NUMBERS bytes.now) }
{
    let mut numbers = Numbers::new(alloc);
    let mut rest = bytes;
    for _ in 0..MOST_NUMBERS {
        let Some(digits) = strip(b" ", rest) else {
            break;
        };
        let (next, thereafter) = number(digits)?;
        numbers.push(next)?;
        rest = thereafter;
    }
    Ok((numbers, rest))
}

/// The label at the front.
#[tactic(auto, unfolding(crate::specs::Text::Reading::label_at))]
fn label(alloc: Global, bytes: &[u8]) -> Result<(CertLabel, &[u8]), Stop>
    ensures { Gives (λ x. (x.0, x.1.now)) result (label_at bytes.now) }
{
    let rest = word(b"l ", bytes)?;
    let (depart, rest) = dash_or_number(rest)?;
    let rest = word(b" ", rest)?;
    let (progress, rest) = number(rest)?;
    let (numbers, rest) = numbers(alloc, rest)?;
    let rest = word(b"\n", rest)?;
    let label = CertLabel {
        depart,
        progress,
        numbers,
    };
    Ok((label, rest))
}

/// So many labels.
#[tactic(auto, unfolding(crate::specs::Text::Reading::labels_at))]
fn labels(alloc: Global, count: u32, bytes: &[u8]) -> Result<(CertLabels, &[u8]), Stop>
    ensures { Gives (λ x. (x.0, x.1.now)) result (labels_at count bytes.now) }
{
    let mut labels = CertLabels::new(alloc);
    let mut rest = bytes;
    for _ in 0..count {
        let (next, thereafter) = label(alloc, rest)?;
        labels.push(next)?;
        rest = thereafter;
    }
    Ok((labels, rest))
}

/// The head line of the layer of this step: the number of its labels.
#[tactic(auto, unfolding(crate::specs::Text::Reading::layer_head_at))]
fn layer_head(step: u32, bytes: &[u8]) -> Result<(u32, &[u8]), Stop>
    ensures { Gives (λ x. (x.0, x.1.now)) result (layer_head_at step bytes.now) }
{
    let rest = word(b"layer ", bytes)?;
    let (found, rest) = number(rest)?;
    let rest = word(b" ", rest)?;
    let (count, rest) = number(rest)?;
    let rest = word(b"\n", rest)?;
    if found == step {
        Ok((count, rest))
    } else {
        Err(Stop::Left(bytes.len()))
    }
}

/// The layer of this step at the front.
#[tactic(auto, unfolding(crate::specs::Text::Reading::layer_at))]
fn layer(alloc: Global, step: u32, bytes: &[u8]) -> Result<(CertLabels, &[u8]), Stop>
    ensures { Gives (λ x. (x.0, x.1.now)) result (layer_at step bytes.now) }
{
    let (count, rest) = layer_head(step, bytes)?;
    labels(alloc, count, rest)
}

/// So many layers, from that of step 0 on.
#[tactic(auto, unfolding(crate::specs::Text::Reading::layers_at))]
pub fn layers(alloc: Global, count: u32, bytes: &[u8]) -> Result<(CertLayers, &[u8]), Stop>
    ensures { Gives (λ x. (x.0, x.1.now)) result (layers_at count bytes.now) }
{
    let mut layers = CertLayers::new(alloc);
    let mut rest = bytes;
    for step in 0..count {
        let (next, thereafter) = layer(alloc, step, rest)?;
        layers.push(next)?;
        rest = thereafter;
    }
    Ok((layers, rest))
}
