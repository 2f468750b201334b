use sb_model::Text;
use std::fmt::Display;

/// Who reads the standard error of a program. What cannot be written there is lost.
#[derive(Clone, Copy)]
pub struct Operator<'a> {
    rt: &'a HostRuntime,
    program: &'a str,
}

impl<'a> Operator<'a> {
    /// The operator of the program with this name.
    pub fn new(rt: &'a HostRuntime, program: &'a str) -> Operator<'a> {
        Operator { rt, program }
    }

    /// Says this of an object that has this name, or none.
    pub fn say<W: Display>(&self, object: &str, name: &str, what: &W) {
        let program = self.program;
        let space = if name.is_empty() { "" } else { " " };
        let _ = eprintln!(self.rt; "{program}: {object}{space}{name} {what}");
    }

    /// Says what an object with this name is.
    pub fn say_is<W: Display>(&self, object: &str, name: &str, what: &W) {
        let program = self.program;
        let _ = eprintln!(self.rt; "{program}: {object} {name} is {what}");
    }

    /// Says why an object failed, where that is known.
    pub fn tell<W: Display + Drop>(&self, object: &str, why: Option<W>) {
        if let Some(why) = why {
            self.say(object, "", &why);
        }
    }

    /// Says why the object failed that the words name, where they name one and that is known.
    pub fn tell_of<W: Display + Drop>(&self, object: &str, name: &Option<Text>, why: Option<W>) {
        if let (Some(name), Some(why)) = (name, why) {
            self.say(object, name.as_str(), &why);
        }
    }
}
