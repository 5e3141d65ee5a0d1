//! What the cores tell.

use crate::play::{Play, Side, side_at};
use crate::post::Post;
use crate::print::{book_onto, record_onto, span_word, yes_word};
use crate::station::Station;
use lat_script::{
    ScriptFault, address, byte, no_command, number, number_onto, short, state_onto, word,
};

impl<S: Station, N: Station> Play<S, N> {
    /// What is told at a question.
    pub fn tell(&self, line: &str, text: &mut String) -> Result<(), ScriptFault> {
        match word(line, 0) {
            "record" => {
                let record = self.server.record_at(number(line, 1)? as usize);
                Ok(record_onto(text, record)?)
            }
            "used" => {
                let used = self.node.used().ok_or(no_command(0))?;
                Ok(number_onto(text, u64::from(used))?)
            }
            "moment" | "finished" | "span" | "names" | "book" | "state" | "waiting" => {
                match side_at(line, 1)? {
                    Side::Server => tell_onto(&self.server, line, text),
                    Side::Node => tell_onto(&self.node, line, text),
                }
            }
            _ => Err(no_command(0)),
        }
    }
}

// What a core tells.
fn tell_onto<C: Station>(post: &Post<C>, line: &str, text: &mut String) -> Result<(), ScriptFault> {
    match word(line, 0) {
        "moment" => Ok(number_onto(text, post.moment())?),
        "finished" => Ok(number_onto(text, u64::from(post.finished()))?),
        "span" => Ok(text.push_str(span_word(post.span(short(line, 2)?)))?),
        "names" => Ok(text.push_str(yes_word(names(post, line)?))?),
        _ => tell_line_onto(post, line, text),
    }
}

// What a core tells of a line.
fn tell_line_onto<C: Station>(
    post: &Post<C>,
    line: &str,
    text: &mut String,
) -> Result<(), ScriptFault> {
    match word(line, 0) {
        "book" => Ok(book_onto(text, post.book(byte(line, 2)?))?),
        "state" => Ok(state_onto(text, post.state(byte(line, 2)?))?),
        "waiting" => Ok(number_onto(text, u64::from(post.waiting(byte(line, 2)?)))?),
        _ => Err(no_command(0)),
    }
}

// Whether a RUN of the address and the ids in this line names a circuit.
fn names<C: Station>(post: &Post<C>, line: &str) -> Result<bool, ScriptFault> {
    Ok(post.names(address(line, 2)?, short(line, 3)?, short(line, 4)?))
}
