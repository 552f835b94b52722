//! Calls of the libraries that read and write texts, images and lines, each allocation refused in turn.

use crate::expecting::{at_least, expect_text, made, parted, refuse};
use crate::images::image_of;
use acta_image::{load, upgrade, write_image};
use acta_lang::{assemble, print_model};
use acta_models::{Standard, load_all};
use acta_script::{
    WordPlace, answer_line, diagnose_event, diagnose_kept, fault_line, owed_line, read_event,
    read_kept, write_event, write_kept,
};
use acta_table::{Answer, EdgeNo, Missing, Model, Owed, Ret, Rule, TxnId};
use refusing::{Case, Refusing};
use std::alloc::{AllocError, Allocator, Global};
use std::process::Abort;

// Writes the canonical text of a text's model. This function and the next ones return `None` if memory runs out: the texts,
// images and lines are good, and the contracts exclude a fault of a good one.
fn text_again<A: Allocator + Copy>(alloc: A, text: &[u8]) -> Option<Vec<u8, A>> {
    let model = assemble(alloc, text).ok()?;
    let text = print_model(alloc, &model);
    drop(model);
    text.ok()
}

// Adds the canonical texts of models.
fn add_printed<A: Allocator + Copy>(
    alloc: A,
    text: &mut Vec<u8, A>,
    models: &[Model<A>],
) -> Result<(), AllocError> {
    for model in models {
        text.extend_from_slice(print_model(alloc, model)?.as_slice())?;
    }
    Ok(())
}

// Writes the canonical texts of the standard models, one after another.
fn all_printed<A: Allocator + Copy>(alloc: A) -> Option<Vec<u8, A>> {
    let models = load_all(alloc).ok()?;
    let mut text = Vec::new(alloc);
    let added = add_printed(alloc, &mut text, models.as_slice());
    drop(models);
    added.ok()?;
    Some(text)
}

// Writes the image of the model that is loaded from an image.
fn image_again<A: Allocator + Copy>(alloc: A, image: &[u8]) -> Option<Vec<u8, A>> {
    let model = load(alloc, image).ok()?;
    let image = write_image(alloc, &model);
    drop(model);
    image.ok()
}

// Writes the line, the code and the place of the word at fault of a faulty text, a byte each.
fn text_fault<A: Allocator>(alloc: A, line: usize, code: u8, place: usize) -> Option<Vec<u8, A>> {
    let line = u8::try_from(line).ok()?;
    let place = u8::try_from(place).ok()?;
    Vec::from_slice(alloc, [line, code, place].as_slice()).ok()
}

// Writes the diagnostic of a faulty text.
fn text_diagnosed<A: Allocator + Copy>(alloc: A, text: &[u8]) -> Option<Vec<u8, A>> {
    match acta_lang::diagnose(alloc, text) {
        Ok(Some(found)) => {
            text_fault(
                alloc,
                found.line,
                found.code.number(),
                found.place.unwrap_or(0),
            )
        }
        _ => None,
    }
}

// Writes the fault of a faulty image, and the offset of its field, a byte each.
fn image_diagnosed<A: Allocator + Copy>(alloc: A, image: &[u8]) -> Option<Vec<u8, A>> {
    match acta_image::diagnose(alloc, image) {
        Ok(Some(found)) => {
            let offset = u8::try_from(found.offset).ok()?;
            Vec::from_slice(alloc, [found.fault.number(), offset].as_slice()).ok()
        }
        _ => None,
    }
}

// Writes the event that a line has.
fn event_again<A: Allocator + Copy>(alloc: A, model: &Model<A>, line: &[u8]) -> Option<Vec<u8, A>> {
    let event = read_event(alloc, model, line).ok()?;
    let line = write_event(alloc, model, &event);
    drop(event);
    line.ok()
}

// Writes the kept item that a line has.
fn kept_again<A: Allocator + Copy>(alloc: A, model: &Model<A>, line: &[u8]) -> Option<Vec<u8, A>> {
    let kept = read_kept(alloc, model, line).ok()?;
    let line = write_kept(alloc, model, &kept);
    drop(kept);
    line.ok()
}

// Writes the number of the fault of a line, and the number of its wrong word.
fn diagnosed<A: Allocator + Copy>(
    alloc: A,
    model: &Model<A>,
    line: &[u8],
    is_kept: bool,
) -> Option<Vec<u8, A>> {
    let found = if is_kept {
        diagnose_kept(alloc, model, line)
    } else {
        diagnose_event(alloc, model, line)
    };
    let found = found.ok()??;
    let WordPlace::Wrong(place) = found.place else {
        return None;
    };
    fault_line(alloc, found.fault.number(), 0, place as u64).ok()
}

// Writes the line of an answer, a refusal, a debt or a fault.
fn line_of<A: Allocator + Copy>(alloc: A, call: &str) -> Result<Vec<u8, A>, AllocError> {
    match call {
        "answer" => {
            let ret = Some(Ret::Value(-9_223_372_036_854_775_808));
            answer_line(alloc, &Answer::Admitted { place: 65_536, ret })
        }
        "refusal" => {
            let (rule, by) = (Rule::NoHeir, Some(4_294_967_295));
            answer_line(alloc, &Answer::Refused { rule, by })
        }
        "debt" => {
            let (edge, txn, missing) = (EdgeNo(16_384), TxnId(16_383), Missing::Abort);
            owed_line(alloc, &Owed { edge, txn, missing })
        }
        _ => fault_line(alloc, 33, 65_536, 18_446_744_073_709_551_615),
    }
}

// The runtime of a test, memory that may be refused, other memory, and a model.
#[derive(Drop)]
struct Setting<'a, R, A: Allocator> {
    rt: &'a R,
    alloc: A,
    other: Global,
    model: &'a Model<A>,
}

// A call, the bytes that it reads, and the bytes that it writes.
#[derive(Drop)]
struct Calling<'a, R, A: Allocator> {
    on: &'a Setting<'a, R, A>,
    call: &'a str,
    bytes: &'a [u8],
    due: &'a [u8],
}

impl<'a, R: Abort, A: Allocator + Copy> Case for Calling<'a, R, A> {
    type State = ();

    type Answer = Vec<u8, A>;

    fn start(&self) {}

    fn call(&self, _state: &mut ()) -> Option<Vec<u8, A>> {
        let (alloc, bytes) = (self.on.alloc, self.bytes);
        match self.call {
            "text" => text_again(alloc, bytes),
            "texts" => all_printed(alloc),
            "image" => image_again(alloc, bytes),
            "upgrade" => upgrade(alloc, bytes).ok(),
            "faulty text" => text_diagnosed(alloc, bytes),
            "faulty image" => image_diagnosed(alloc, bytes),
            "event" => event_again(alloc, self.on.model, bytes),
            "kept" => kept_again(alloc, self.on.model, bytes),
            "diagnose_event" => diagnosed(alloc, self.on.model, bytes, false),
            "diagnose_kept" => diagnosed(alloc, self.on.model, bytes, true),
            call => line_of(alloc, call).ok(),
        }
    }

    // Compares the bytes themselves, since those of an image are no text.
    fn describe(&self, answer: &Vec<u8, A>, _state: &()) -> String {
        expect_text(self.on.rt, answer.as_slice(), self.due, self.call);
        String::new(self.on.other)
    }

    fn read(&self, _state: &()) -> String {
        String::new(self.on.other)
    }
}

// Refuses each allocation of a call, at least this many. The call reads the first bytes and writes the second.
fn refuse_call<R: Abort, A: Allocator + Copy, B: Allocator>(
    on: &Setting<'_, R, A>,
    heap: &Refusing<B>,
    (call, least): (&str, u64),
    (bytes, due): (&[u8], &[u8]),
) {
    let case = Calling {
        on,
        call,
        bytes,
        due,
    };
    let refused = refuse(on.rt, heap, &case, "", call);
    at_least(on.rt, refused, least, call);
}

// A call, with the line that it reads if it reads one, and the line that it writes.
const LINES: &str = "\
event delegate 1 2 1,2,9 -- delegate 1 2 1,2,9
event delegate 1 2 9,2,1 -- delegate 1 2 1,2,9
event permit 1 2 x -- permit 1 2 x
kept delegate 1 2 1,2,9 -- delegate 1 2 1,2,9
kept delegate 1 2 9,2,1 -- delegate 1 2 1,2,9
kept permit 1 2 x -- permit 1 2 x
kept split 1 2 part 4,7 -- split 1 2 part 4,7
kept do 1 x write 5 = done -- do 1 x write 5 = done
kept begin 1 part -- begin 1 part
diagnose_event delegate 1 1 1,,9 -- fault 4 0 3
diagnose_event split 1 2 parts 4,7 -- fault 5 0 3
diagnose_kept join 1 1 1 = done done -- fault 3 0 3
diagnose_kept do 1 x write 5 = maybe -- fault 4 0 6
answer -- ok 65536 -9223372036854775808
refusal -- no 28 by 4294967295
debt -- owed 16384 16383 abort
fault -- fault 33 65536 18446744073709551615";

fn refuse_lines<R: Abort, A: Allocator + Copy, B: Allocator>(
    on: &Setting<'_, R, A>,
    heap: &Refusing<B>,
) {
    for line in LINES.lines() {
        let (asked, due) = parted(on.rt, line, " -- ");
        let (call, read) = asked.split_once(' ').unwrap_or((asked, ""));
        refuse_call(on, heap, (call, 1), (read.as_bytes(), due.as_bytes()));
    }
}

// Returns the texts of the standard models, one after another.
fn all_texts(rt: &impl Abort, alloc: Global) -> Vec<u8> {
    let mut all = Vec::new(alloc);
    for name in Standard::ALL {
        made(rt, all.extend_from_slice(name.text().as_bytes()), "texts");
    }
    all
}

// A text whose line 5 declares an object again, which line 2 declares: code 4, the word at place 1.
const FAULTY: &str = "object y set\nobject x set\nclass a\nstarts begin\nobject x set\n";

fn refuse_texts<R: Abort, A: Allocator + Copy, B: Allocator>(
    on: &Setting<'_, R, A>,
    heap: &Refusing<B>,
) {
    for name in Standard::ALL {
        let text = name.text().as_bytes();
        refuse_call(on, heap, ("text", 10), (text, text));
    }
    let texts = all_texts(on.rt, on.other);
    refuse_call(on, heap, ("texts", 50), (b"", texts.as_slice()));
    let image = image_of(on.rt, on.other, Standard::Nested);
    let (image, same) = (image.as_slice(), image.as_slice());
    refuse_call(on, heap, ("image", 10), (image, same));
    refuse_call(on, heap, ("upgrade", 10), (image, same));
    let last = image.len().wrapping_sub(1);
    let shorter = image.get(..last).unwrap_or(b"".as_slice());
    let due = [3, u8::try_from(last).unwrap_or(0)];
    refuse_call(on, heap, ("faulty image", 5), (shorter, due.as_slice()));
    let due = [5, 4, 1];
    refuse_call(
        on,
        heap,
        ("faulty text", 5),
        (FAULTY.as_bytes(), due.as_slice()),
    );
}

// Refuses each allocation of the calls on lines, or of those on texts and images. The lines name a class and objects of
// split transactions.
fn refuse_all<R: Abort, A: Allocator + Copy, B: Allocator>(
    rt: &R,
    other: Global,
    alloc: A,
    heap: &Refusing<B>,
    are_lines: bool,
) {
    let text = Standard::SplitJoin.text().as_bytes();
    let model = made(rt, assemble(alloc, text), "a model");
    let on = Setting {
        rt,
        alloc,
        other,
        model: &model,
    };
    if are_lines {
        refuse_lines(&on, heap);
    } else {
        refuse_texts(&on, heap);
    }
    drop(model);
}

#[test]
fn lines(rt: HostRuntime) {
    let heap = Refusing::new(rt.alloc());
    refuse_all(&rt, rt.alloc(), &heap, &heap, true);
}

#[test]
fn texts_and_images(rt: HostRuntime) {
    let heap = Refusing::new(rt.alloc());
    refuse_all(&rt, rt.alloc(), &heap, &heap, false);
}
