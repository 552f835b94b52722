//! The declarations so far: objects and classes by name, and the open class. Names are borrowed from the text, and copied
//! only when the model is made.

ghost use Rattle.std.specs.Prelude.{◌≡◌, map, option_and_then, option_map, false, IfOk, OnOk};
ghost use Rattle.std.specs.Option.{option_map_or, option_or};
ghost use Rattle.std.specs.Str.{bytes_eq};
ghost use Rattle.acta_words.specs.Text.{is_word_among};
ghost use Rattle.acta_lang.specs.Drafts.{extended, nothing_yet, parts_of, first_value, with_object, with_closed, with_parsed};
ghost use Rattle.acta_lang.specs.Faults.{class_names, duplicate_name, heir_without_spawn, missing_end, missing_part, object_names, too_many, wrong_place};
ghost use Rattle.acta_lang.specs.Forms.{name_in, value_in};
ghost use Rattle.acta_lang.specs.Diagnostics.{class_reported};
ghost use Rattle.acta_lang.specs.Lines.{part_line};
ghost use Rattle.acta_lang.specs.Places.{lacking, wrongly_placed};
ghost use Rattle.acta_lang.specs.inside.Noted.{class_noted, closed_noted, current_line, earlier_noted, line_of, noted, noted_by, nothing_noted, object_noted, parsed_noted};
ghost use Rattle.acta_lang.specs.inside.Abstraction.{is_current_taken, abstraction};

use crate::diagnostic::{ClassLines, Expected};
use crate::fault::Code;
use crate::form::Form;
use crate::names::{Named, add_name, found, is_declared};
use crate::parsed::Parsed;
use crate::parts::PartLines;
use acta_table::{Class, Items, Kind, MOST_CLASSES, MOST_OBJECTS, Object, Parts};
use acta_words::read_i32;
use std::alloc::{AllocError, Allocator};
use std::hash::BuildHasherDefault;

/// An object, and the line that declares it.
#[derive(Clone, Copy)]
pub(crate) struct ObjectDraft {
    kind: Kind,
    line: usize,
}

impl ObjectDraft {
    // The line that declares the object.
    fn line(&self) -> usize
        ensures { result ≡ self.now.line }
    {
        self.line
    }
}

/// A class that is closed, and the line that begins it.
#[derive(Drop)]
pub(crate) struct ClosedDraft<A: Allocator> {
    parsed: Parsed<A>,
    line: usize,
}

impl<A: Allocator> ClosedDraft<A> {
    // The line that begins the class.
    fn line(&self) -> usize
        ensures { result ≡ self.now.line }
    {
        self.line
    }
}

/// An open class, with the line that begins it and the lines of its parts.
#[derive(Drop)]
pub(crate) struct ClassDraft<'a, A: Allocator> {
    name: &'a [u8],
    parsed: Parsed<A>,
    line: usize,
    parts: PartLines,
}

/// The declarations of the lines so far.
#[derive(Drop)]
pub(crate) struct Draft<'a, A: Allocator> {
    objects: Named<'a, ObjectDraft, A>,
    classes: Named<'a, ClosedDraft<A>, A>,
    current: Option<ClassDraft<'a, A>>,
}

/// The word in the place of a name.
pub(crate) fn name_in<'a>(words: &[&'a [u8]]) -> &'a [u8]
    ensures { result.now ≡ name_in (map (λ word. word.now) words.now) }
{
    match words {
        [_, name, ..] => name,
        _ => b"".as_slice(),
    }
}

/// The word in the place of a first value.
pub(crate) fn value_in<'a>(words: &[&'a [u8]]) -> &'a [u8]
    ensures { result.now ≡ value_in (map (λ word. word.now) words.now) }
{
    match words {
        [_, _, _, value, ..] => value,
        _ => b"".as_slice(),
    }
}

// The first value of the line, or 0 if it is not a number.
fn first_value(words: &[&[u8]]) -> i32
    ensures { result ≡ first_value (value_in (map (λ word. word.now) words.now)) }
{
    read_i32(value_in(words)).unwrap_or(0)
}

impl<'a, A: Allocator + Copy> Draft<'a, A> {
    /// The draft before any line. Does not allocate.
    pub(crate) fn nothing(alloc: A) -> Draft<'a, A>
        ensures abstraction { abstraction result ≡ nothing_yet }
        ensures noted { noted result ≡ nothing_noted }
    {
        Draft {
            objects: Named::with_hasher(alloc, BuildHasherDefault::new()),
            classes: Named::with_hasher(alloc, BuildHasherDefault::new()),
            current: None,
        }
    }

    // Whether an object has this name.
    fn has_object(&self, name: &'a [u8]) -> bool
        ensures { result ≡ is_word_among (object_names (abstraction self.now)) name.now }
    {
        is_declared(&self.objects, name)
    }

    // Whether a class has this name, the open one too.
    fn has_class(&self, name: &'a [u8]) -> bool
        ensures { result ≡ is_word_among (class_names (abstraction self.now)) name.now }
    {
        is_declared(&self.classes, name) || self.is_current(name)
    }

    // Whether the open class has this name.
    fn is_current(&self, name: &[u8]) -> bool
        ensures { result ≡ option_map_or (λ class. bytes_eq name.now class.name) (abstraction self.now).current false }
    {
        match &self.current {
            Some(class) => name == class.name,
            None => false,
        }
    }

    /// Whether the line declares an object or a class whose name an earlier line has declared.
    #[tactic(auto, unfolding(crate::specs::Faults::duplicate_name))]
    pub(crate) fn duplicate_name(&self, words: &[&'a [u8]], parsed: &Form) -> bool
        ensures { result ≡ duplicate_name (abstraction self.now) (map (λ word. word.now) words.now) parsed.now }
    {
        let name = name_in(words);
        parsed.is_object() && self.has_object(name) || parsed.is_class() && self.has_class(name)
    }

    /// Whether the line is not allowed inside, or not outside, a class, or repeats a part of the open class.
    #[tactic(auto, unfolding(crate::specs::Faults::wrong_place))]
    pub(crate) fn wrong_place(&self, parsed: &Form) -> bool
        ensures { result ≡ wrong_place (abstraction self.now) parsed.now }
    {
        if matches!(parsed, Form::Blank) {
            return false;
        }
        match &self.current {
            Some(class) => parsed.is_object() || parsed.is_class() || class.parsed.has(parsed),
            None => !(parsed.is_object() || parsed.is_class()),
        }
    }

    /// What is expected instead of a line in the wrong place.
    pub(crate) fn wrongly_placed(&self, parsed: &Form) -> Expected
        ensures { result ≡ wrongly_placed (abstraction self.now).current parsed.now }
    {
        match &self.current {
            Some(class) => {
                if class.parsed.has(parsed) {
                    Expected::Once
                } else {
                    Expected::Ended
                }
            }
            None => Expected::Outside,
        }
    }

    /// What a text lacks that ends with this line: parts of the open class, or a class.
    pub(crate) fn lacking(&self) -> Expected
        ensures { result ≡ lacking (abstraction self.now).current }
    {
        match &self.current {
            Some(_) => Expected::AllParts,
            None => Expected::SomeClass,
        }
    }

    /// Whether there is one object or one class too many.
    #[tactic(auto, unfolding(crate::specs::Faults::too_many))]
    pub(crate) fn too_many(&self, parsed: &Form) -> bool
        ensures { result ≡ too_many (abstraction self.now) parsed.now }
    {
        parsed.is_object() && self.objects.len() >= MOST_OBJECTS
            || parsed.is_class() && self.classes.len() >= MOST_CLASSES
    }

    /// Whether the line is the last and leaves a class open.
    #[tactic(auto, unfolding(crate::specs::Faults::missing_end, crate::specs::Drafts::extended))]
    pub(crate) fn missing_end(&self, is_last: bool, words: &[&[u8]], parsed: &Form) -> bool
        ensures { result ≡ missing_end is_last (extended (abstraction self.now) (map (λ word. word.now) words.now) parsed.now) }
    {
        let is_open = match parsed {
            Form::Class => true,
            Form::End => false,
            _ => self.current.is_some(),
        };
        is_last && is_open
    }

    /// Whether the line ends a class without all its parts, or is the last of a text without a class.
    #[tactic(auto, unfolding(crate::specs::Faults::missing_part, crate::specs::Drafts::extended))]
    pub(crate) fn missing_part(&self, is_last: bool, words: &[&[u8]], parsed: &Form) -> bool
        ensures { result ≡ missing_part is_last (abstraction self.now) (extended (abstraction self.now) (map (λ word. word.now) words.now) parsed.now) parsed.now }
    {
        if parsed.is_end() {
            match &self.current {
                Some(class) => !class.parsed.is_all(),
                None => is_last && self.classes.len() == 0,
            }
        } else {
            is_last && self.classes.len() == 0
        }
    }

    /// Whether the line ends a class that commits to parents but can start without one.
    #[tactic(auto, unfolding(crate::specs::Faults::heir_without_spawn))]
    pub(crate) fn heir_without_spawn(&self, parsed: &Form) -> bool
        ensures { result ≡ heir_without_spawn (abstraction self.now) parsed.now }
    {
        match &self.current {
            Some(class) => parsed.is_end() && class.parsed.lacks_parents(),
            None => false,
        }
    }

    // The line that declares an object of this name.
    fn object_line(&self, name: &'a [u8]) -> Option<usize>
        ensures { result ≡ line_of name.now (noted self.now).objects }
    {
        match found(&self.objects, name) {
            Some(object) => Some(object.line()),
            None => None,
        }
    }

    // The line that begins the open class, if it has this name.
    fn current_line(&self, name: &[u8]) -> Option<usize>
        ensures { result ≡ current_line name.now (noted self.now).current }
    {
        match &self.current {
            Some(class) => {
                if name == class.name {
                    Some(class.line)
                } else {
                    None
                }
            }
            None => None,
        }
    }

    // The line that begins a class of this name, closed or open.
    fn class_line(&self, name: &'a [u8]) -> Option<usize>
        ensures { result ≡ option_or (line_of name.now (noted self.now).classes) (current_line name.now (noted self.now).current) }
    {
        match found(&self.classes, name) {
            Some(class) => Some(class.line()),
            None => self.current_line(name),
        }
    }

    // The line of the open class with the same part as a line of this form.
    fn parsed_line(&self, parsed: &Form) -> Option<usize>
        ensures { result ≡ option_and_then (λ class. part_line parsed.now class.parts) (noted self.now).current }
    {
        match &self.current {
            Some(class) => class.parts.line_of(parsed),
            None => None,
        }
    }

    /// The earlier line that a fault of this code involves, at a line of these words and this form: the line that declares
    /// the name, or that has the part.
    pub(crate) fn earlier(&self, words: &[&'a [u8]], parsed: &Form, code: Code) -> Option<usize>
        ensures { result ≡ earlier_noted (noted self.now) (map (λ word. word.now) words.now) parsed.now code }
    {
        match code {
            Code::DuplicateName => {
                if parsed.is_class() {
                    self.class_line(name_in(words))
                } else {
                    self.object_line(name_in(words))
                }
            }
            Code::WrongPlace => self.parsed_line(parsed),
            _ => None,
        }
    }

    // The open class.
    fn open(&self) -> Option<ClassLines<'a>>
        ensures { option_map class_reported result ≡ (noted self.now).current }
    {
        match &self.current {
            Some(class) => Some(ClassLines {
                name: class.name,
                line: class.line,
                parts: class.parts,
            }),
            None => None,
        }
    }

    /// The class that is open before the line of this number, words and form. For `MissingEnd`, the class that is open after
    /// it, which the line itself may begin.
    pub(crate) fn class_at(
        &self,
        number: usize,
        words: &[&'a [u8]],
        parsed: &Form,
        code: Code,
    ) -> Option<ClassLines<'a>>
        ensures { option_map class_reported result ≡ class_noted (noted self.now) number (map (λ word. word.now) words.now) parsed.now code }
    {
        if matches!(code, Code::MissingEnd) && parsed.is_class() {
            Some(ClassLines {
                name: name_in(words),
                line: number,
                parts: PartLines::none(),
            })
        } else {
            self.open()
        }
    }

    fn add_object(&mut self, name: &'a [u8], kind: Kind, line: usize) -> Result<(), AllocError>
        requires { is_word_among (map (λ o. o.name) (abstraction self.old).objects) name.now ≡ false }
        ensures abstraction { OnOk result (abstraction self.new ≡ with_object (abstraction self.old) name.now kind) }
        ensures noted { OnOk result (noted self.new ≡ object_noted (noted self.old) name.now line) }
    {
        add_name(&mut self.objects, name, ObjectDraft { kind, line })
    }

    // Closes the open class, if there is one.
    fn close(&mut self) -> Result<(), AllocError>
        requires { is_current_taken (abstraction self.old) ≡ false }
        ensures abstraction { OnOk result (abstraction self.new ≡ with_closed (abstraction self.old) (abstraction self.old).current) }
        ensures noted { OnOk result (noted self.new ≡ closed_noted (noted self.old) (noted self.old).current) }
    {
        match self.current.take() {
            Some(class) => {
                let ClassDraft {
                    name,
                    parsed,
                    line,
                    ..
                } = class;
                add_name(&mut self.classes, name, ClosedDraft { parsed, line })
            }
            None => Ok(()),
        }
    }

    // Adds the part on the line of this number to the open class, if there is one.
    fn say(&mut self, number: usize, parsed: &Form) -> Result<(), AllocError>
        ensures abstraction { OnOk result (abstraction self.new ≡ record (abstraction self.old) { current = option_map (with_parsed parsed.now) (abstraction self.old).current }) }
        ensures noted { OnOk result (noted self.new ≡ parsed_noted (noted self.old) number parsed.now) }
    {
        match &mut self.current {
            Some(class) => {
                class.parts.add(parsed, number);
                class.parsed.add(parsed)
            }
            None => Ok(()),
        }
    }

    /// Adds what the line of this number declares.
    #[tactic(auto, unfolding(crate::specs::Drafts::extended, crate::specs::Faults::duplicate_name))]
    pub(crate) fn extend(
        &mut self,
        alloc: A,
        number: usize,
        words: &[&'a [u8]],
        parsed: &Form,
    ) -> Result<(), AllocError>
        requires new { duplicate_name (abstraction self.old) (map (λ word. word.now) words.now) parsed.now ≡ false }
        requires current_is_new { is_current_taken (abstraction self.old) ≡ false }
        ensures abstraction { OnOk result (abstraction self.new ≡ extended (abstraction self.old) (map (λ word. word.now) words.now) parsed.now) }
        ensures noted { OnOk result (noted self.new ≡ noted_by number (map (λ word. word.now) words.now) parsed.now (noted self.old)) }
    {
        match parsed {
            Form::Register => {
                self.add_object(name_in(words), Kind::Register(first_value(words)), number)
            }
            Form::Counter => {
                self.add_object(name_in(words), Kind::Counter(first_value(words)), number)
            }
            Form::Elements => self.add_object(name_in(words), Kind::Elements, number),
            Form::Class => {
                self.current = Some(ClassDraft {
                    name: name_in(words),
                    parsed: Parsed::nothing(alloc),
                    line: number,
                    parts: PartLines::none(),
                });
                Ok(())
            }
            Form::End => self.close(),
            _ => self.say(number, parsed),
        }
    }

    // The objects, with copies of their names.
    fn objects(&self, alloc: A) -> Result<Items<Object<A>, A>, AllocError>
        ensures { IfOk result (λ objects. objects ≡ (abstraction self.now).objects) }
    {
        let mut objects = Vec::with_capacity(alloc, self.objects.len())?;
        for (name, object) in self.objects.iter() {
            objects.push(Object {
                name: Items::of(Vec::from_slice(alloc, name)?),
                kind: object.kind,
            })?;
        }
        Ok(Items::of(objects))
    }

    // The closed classes, with copies of their names.
    fn classes(&self, alloc: A) -> Result<Items<Class<A>, A>, AllocError>
        ensures { IfOk result (λ classes. classes ≡ (abstraction self.now).classes) }
    {
        let mut classes = Vec::with_capacity(alloc, self.classes.len())?;
        for (name, class) in self.classes.iter() {
            classes.push(class.parsed.class(alloc, name)?)?;
        }
        Ok(Items::of(classes))
    }

    /// The parts of the model that the lines declare.
    pub(crate) fn parts(&self, alloc: A) -> Result<Parts<A>, AllocError>
        ensures { IfOk result (λ parts. parts ≡ parts_of (abstraction self.now)) }
    {
        Ok(Parts {
            objects: self.objects(alloc)?,
            classes: self.classes(alloc)?,
        })
    }
}
