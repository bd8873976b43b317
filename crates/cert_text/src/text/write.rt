//! Writing a certificate.
ghost use Rattle.std.specs.Prelude.{◌≡◌, ◌++◌, ◌<◌, ◌≤◌, ℕ, List, [], ◌∷◌, length, pos, codes, All, OnOk, IfOk};
ghost use Rattle.std.specs.Fmt.{decimal};
ghost use Rattle.std.specs.List.{flat_map};
ghost use Rattle.civil_minutes.specs.declared.century.TheConstants.{MINUTES_OF_CENTURY};
ghost use Rattle.duty_core.specs.Day.{day_start};
ghost use Rattle.duty_core.specs.Marks.{mark_minute};
ghost use Rattle.tour_model.specs.Tour.{IsTour};
ghost use Rattle.rule_core.specs.declared.numbers.TheConstants.{NUMBER_LIMIT};
ghost use Rattle.cert_text.specs.Text.Form.{IsMarkForm, AreMarkForms, IsLayerForm, IsCertForm};
ghost use Rattle.cert_text.specs.Text.Spelling.{letter, number_line, kind_line, number_or_dash, target_line, run_line, mark_word, IsMarkLine, AreMarkLines, state_number, label_line, layer_head, layer_lines, layers_lines, schedule_lines, claim_lines, cover_lines, IsCertText};

use crate::cert::{Cert, CertKind, CertLabel, CertLabels, StepRun};
use civil_minutes::{day_first, write_minute};
use duty_core::{Activity, Mark, Minute, NoMemory, Params, day_start_of};
use itoa::Buffer;
use std::alloc::Global;
use tour_model::Tour;

/// Puts bytes at the end.
fn put(out: &mut Vec<u8>, bytes: &[u8]) -> Result<(), NoMemory>
    ensures { OnOk result (out.new.items ≡ out.old.items ++ bytes.now) }
{
    out.extend_from_slice(bytes)?;
    Ok(())
}

/// Puts a number at the end, in decimal.
fn put_number(out: &mut Vec<u8>, number: u32) -> Result<(), NoMemory>
    ensures { OnOk result (out.new.items ≡ out.old.items ++ decimal number) }
{
    let mut digits = Buffer::new();
    put(out, digits.format(number).as_bytes())
}

/// Puts a line of a word and a number at the end.
fn put_number_line(out: &mut Vec<u8>, word: &[u8], number: u32) -> Result<(), NoMemory>
    ensures { OnOk result (out.new.items ≡ out.old.items ++ number_line word.now number) }
{
    put(out, word)?;
    put_number(out, number)?;
    put(out, b"\n")
}

/// Puts a number at the end, or a dash where there is none.
fn put_number_or_dash(out: &mut Vec<u8>, number: Option<u32>) -> Result<(), NoMemory>
    ensures { OnOk result (out.new.items ≡ out.old.items ++ number_or_dash number) }
{
    match number {
        Some(number) => put_number(out, number),
        None => put(out, b"-"),
    }
}

/// Puts the letter of an activity at the end.
fn put_letter(out: &mut Vec<u8>, act: Activity) -> Result<(), NoMemory>
    ensures { OnOk result (out.new.items ≡ out.old.items ++ letter act) }
{
    match act {
        Activity::Drive => put(out, b"D"),
        Activity::Serve => put(out, b"S"),
        Activity::Wait => put(out, b"W"),
        Activity::Off => put(out, b"O"),
        Activity::Berth => put(out, b"B"),
    }
}

/// Puts the line of a run at the end.
fn put_run(out: &mut Vec<u8>, run: StepRun) -> Result<(), NoMemory>
    ensures { OnOk result (out.new.items ≡ out.old.items ++ run_line run) }
{
    put(out, b"r ")?;
    put_number(out, run.count)?;
    put(out, b" ")?;
    put_letter(out, run.act)?;
    put(out, b"\n")
}

/// Puts the lines of a schedule at the end.
fn put_schedule(out: &mut Vec<u8>, runs: &[StepRun]) -> Result<(), NoMemory>
    requires { length runs.now < NUMBER_LIMIT }
    ensures { OnOk result (out.new.items ≡ out.old.items ++ schedule_lines runs.now) }
{
    put_number_line(out, b"schedule ", runs.len() as u32)?;
    for run in runs {
        put_run(out, *run)?;
    }
    Ok(())
}

/// Puts the numbers of a state at the end, a space before each.
fn put_numbers(out: &mut Vec<u8>, numbers: &[u32]) -> Result<(), NoMemory>
    ensures { OnOk result (out.new.items ≡ out.old.items ++ flat_map state_number numbers.now) }
{
    for number in numbers {
        put(out, b" ")?;
        put_number(out, *number)?;
    }
    Ok(())
}

/// Puts the line of a label at the end.
fn put_label(out: &mut Vec<u8>, label: &CertLabel) -> Result<(), NoMemory>
    ensures { OnOk result (out.new.items ≡ out.old.items ++ label_line label.now) }
{
    put(out, b"l ")?;
    put_number_or_dash(out, label.depart)?;
    put(out, b" ")?;
    put_number(out, label.progress)?;
    put_numbers(out, label.numbers.items())?;
    put(out, b"\n")
}

/// Puts the head line of a layer at the end.
fn put_layer_head(out: &mut Vec<u8>, step: u32, count: u32) -> Result<(), NoMemory>
    ensures { OnOk result (out.new.items ≡ out.old.items ++ layer_head step count) }
{
    put(out, b"layer ")?;
    put_number(out, step)?;
    put(out, b" ")?;
    put_number(out, count)?;
    put(out, b"\n")
}

/// Puts labels at the end, a line for each.
fn put_labels(out: &mut Vec<u8>, labels: &[CertLabel]) -> Result<(), NoMemory>
    ensures { OnOk result (out.new.items ≡ out.old.items ++ flat_map label_line labels.now) }
{
    for label in labels {
        put_label(out, label)?;
    }
    Ok(())
}

/// The minute at which a mark stands.
fn minute_of(params: Params, mark: Mark) -> Minute
    requires start { day_start params < 1440 }
    requires minute { IsMarkForm params 0 mark }
    ensures at { pos result ≡ mark_minute params mark }
    ensures century { result < MINUTES_OF_CENTURY }
{
    match mark {
        Mark::SplitRest { at } => at,
        Mark::DeferDay { day } => day_first(day, day_start_of(params)) as u32,
    }
}

/// Puts the word of a mark at the end.
fn put_mark_word(out: &mut Vec<u8>, mark: Mark) -> Result<(), NoMemory>
    ensures { OnOk result (out.new.items ≡ out.old.items ++ mark_word mark) }
{
    match mark {
        Mark::SplitRest { .. } => put(out, b"split "),
        Mark::DeferDay { .. } => put(out, b"defer "),
    }
}

/// Puts the line of a mark at the end.
fn put_mark(out: &mut Vec<u8>, params: Params, mark: Mark) -> Result<(), NoMemory>
    requires start { day_start params < 1440 }
    requires minute { IsMarkForm params 0 mark }
    ensures { OnOk result ((line : List ℕ) × IsMarkLine params mark line × (out.new.items ≡ out.old.items ++ line)) }
{
    let time = write_minute(minute_of(params, mark));
    put(out, b"m ")?;
    put_mark_word(out, mark)?;
    put(out, &time)?;
    put(out, b"\n")
}

/// Puts marks at the end, a line for each.
fn put_marks(out: &mut Vec<u8>, params: Params, marks: &[Mark]) -> Result<(), NoMemory>
    requires start { day_start params < 1440 }
    requires forms { AreMarkForms params 0 marks.now }
    ensures { OnOk result ((text : List ℕ) × AreMarkLines params marks.now text × (out.new.items ≡ out.old.items ++ text)) }
{
    for mark in marks {
        put_mark(out, params, *mark)?;
    }
    Ok(())
}

/// Puts a layer at the end.
fn put_layer(out: &mut Vec<u8>, step: u32, layer: &CertLabels) -> Result<(), NoMemory>
    requires { length layer.now < NUMBER_LIMIT }
    ensures { OnOk result (out.new.items ≡ out.old.items ++ layer_lines step layer.now) }
{
    let labels = layer.items();
    put_layer_head(out, step, labels.len() as u32)?;
    put_labels(out, labels)
}

/// Puts layers at the end, from that of step 0 on.
fn put_layers(out: &mut Vec<u8>, layers: &[CertLabels]) -> Result<(), NoMemory>
    requires few { length layers.now < NUMBER_LIMIT }
    requires layers { All IsLayerForm layers.now }
    ensures { OnOk result (out.new.items ≡ out.old.items ++ layers_lines 0 layers.now) }
{
    for (step, layer) in layers.iter().enumerate() {
        put_layer(out, step as u32, layer)?;
    }
    Ok(())
}

/// Puts the line of a kind at the end.
fn put_kind(out: &mut Vec<u8>, kind: CertKind) -> Result<(), NoMemory>
    ensures { OnOk result (out.new.items ≡ out.old.items ++ kind_line kind) }
{
    match kind {
        CertKind::Shortest => put(out, b"kind shortest\n"),
        CertKind::Infeasible => put(out, b"kind infeasible\n"),
    }
}

/// Puts the line of a target at the end.
fn put_target(out: &mut Vec<u8>, target: Option<u32>) -> Result<(), NoMemory>
    ensures { OnOk result (out.new.items ≡ out.old.items ++ target_line target) }
{
    put(out, b"target ")?;
    put_number_or_dash(out, target)?;
    put(out, b"\n")
}

/// Puts the lines up to the number of the marks at the end.
fn put_claim(out: &mut Vec<u8>, cert: &Cert) -> Result<(), NoMemory>
    requires schedule { length cert.now.schedule < NUMBER_LIMIT }
    requires marks { length cert.now.marks < NUMBER_LIMIT }
    ensures { OnOk result (out.new.items ≡ out.old.items ++ claim_lines cert.now) }
{
    put(out, b"duty-cert 1\n")?;
    put_kind(out, cert.kind)?;
    put_target(out, cert.target)?;
    put_schedule(out, cert.schedule.items())?;
    put_number_line(out, b"marks ", cert.marks.items().len() as u32)
}

/// Puts what stands after the marks at the end.
fn put_cover(out: &mut Vec<u8>, layers: &[CertLabels]) -> Result<(), NoMemory>
    requires few { length layers.now < NUMBER_LIMIT }
    requires layers { All IsLayerForm layers.now }
    ensures { OnOk result (out.new.items ≡ out.old.items ++ cover_lines layers.now) }
{
    put_number_line(out, b"layers ", layers.len() as u32)?;
    put_layers(out, layers)?;
    put(out, b"end\n")
}

/// Writes a certificate of a tour as its text, which is the only one that it has. The certificate
/// must be one that has a text: each count and number below `NUMBER_LIMIT`, at most `MOST_NUMBERS`
/// numbers in a label, runs of at least one step that differ from their neighbours, and marks in the
/// order of their minutes, which are of the years 2000 to 2099. `NoMemory` where there is none for
/// the text.
pub fn write_cert(alloc: Global, cert: &Cert, tour: &Tour) -> Result<Vec<u8>, NoMemory>
    requires tour { IsTour tour.now }
    requires form { IsCertForm tour.now.params cert.now }
    ensures { IfOk result (λ text. IsCertText tour.now.params cert.now text.items) }
{
    let mut out = Vec::new(alloc);
    put_claim(&mut out, cert)?;
    put_marks(&mut out, tour.params, cert.marks.items())?;
    put_cover(&mut out, cert.layers.items())?;
    Ok(out)
}
