//! Sessions that begin with the jobs of an image, which are carried over. The tables say which commands there are.
use crate::sessions::driven::list_carried_on;
use record_rows::image::{Image, ImageVerb, no_image, on_image};
use row_table::desk::Line;
use row_table::told::Told;
use run_options::{Options, RiskChoice};
use std::alloc::Global;

#[derive(Clone, Copy)]
enum Verb {
    Image(ImageVerb),
    Open,
}

const VERBS: [(&str, Verb); 4] = [
    ("IMAGE", Verb::Image(ImageVerb::Size)),
    ("BYTES", Verb::Image(ImageVerb::Bytes)),
    ("WAITS", Verb::Image(ImageVerb::Job)),
    ("OPEN", Verb::Open),
];

/// The lines that are left, as a text.
fn text_left(alloc: Global, line: &mut Line<'_>) -> Told {
    let mut text = Told::new(alloc);
    for _ in 0..line.lines.len() {
        if !line.next() {
            break;
        }
        text.line(line.text());
    }
    text
}

/// Tells the listing of the session that the lines left are, from a machine with the jobs of an image.
fn tell_opened(alloc: Global, image: &Image, units: u16, line: &mut Line<'_>) {
    let options = Options {
        risk: RiskChoice::Run,
        views: 1024,
        explains: false,
    };
    let text = text_left(alloc, line);
    if text.is_wanting() {
        return line.told.want();
    }
    let listed = list_carried_on(alloc, options, image, units, text.as_slice());
    if let Some(lines) = line.told.got(listed) {
        line.told.word(lines.kept());
    }
}

/// Tells what a row asks for.
pub(crate) fn answer(alloc: Global, input: &[u8], told: &mut Told) {
    let mut image = no_image(alloc);
    let mut line = Line::new(alloc, input);
    for _ in 0..input.len() {
        if !line.next() {
            break;
        }
        match line.words.one_of(&VERBS) {
            Some(Verb::Image(verb)) => on_image(alloc, &mut image, verb, &mut line),
            Some(Verb::Open) => {
                let units = line.words.short();
                tell_opened(alloc, &image, units, &mut line);
            }
            None => {}
        }
        if line.words.is_wrong() {
            let text = line.text();
            line.told.line_of_two(b"?", text);
        }
    }
    told.append(&line.told);
}
