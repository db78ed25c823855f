// What is wrong with a text, line by line.
use catalogue_records::Form;
use cli_output::Say;
use text_lines::Mistake;

// Says what a mistake is; nothing where nothing is wrong.
fn report(rt: &impl Say, line: u64, mistake: Option<Mistake>) {
    let mut text = [0; cli_entries::MOST_MISTAKE];
    let n = cli_entries::put_mistake(&mut text, 0, line, mistake);
    rt.say(&text[..n]);
}

// Says what is wrong with a line.
fn check(rt: &impl Say, form: Form, s: &[u8], line: u64) {
    if text_lines::is_new(s) {
        cli_answers::sentences::say_error(rt, line, b"new on another line than the first");
        return;
    }
    report(rt, line, text_lines::read_line(form, s).err());
}

// Says what is wrong with each of the lines, the first of which has this number.
fn report_lines(rt: &impl Say, form: Form, text: &[u8], first: u64) {
    let mut line = first;
    for s in text.split(|&b| b == b'\n') {
        check(rt, form, s, line);
        line = line.saturating_add(1);
    }
}

// Says what is wrong with each line of a text.
pub(crate) fn report_all(rt: &impl Say, text: &[u8]) {
    if !text_encoding::opens_new(text) {
        report_lines(rt, Form::Old, text, 1);
        return;
    }
    let at = text_encoding::second_line(text);
    report_lines(rt, Form::New, &text[at..], 2);
}
