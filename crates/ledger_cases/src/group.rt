// A group of cases, which are printed under its title.
use super::told::Told;
use std::fmt;

#[derive(Clone, Copy)]
pub struct Group<'r, 't> {
    pub rt: &'r HostRuntime,
    title: &'t str,
}

#[derive(Clone, Copy)]
struct Text(Told);

impl fmt::Display for Text {
    fn fmt<W: fmt::Write>(&self, f: &mut fmt::Formatter<W>) -> fmt::Result {
        match self.0 {
            Ok(fact) => write!(f, "{fact}"),
            Err(refused) => write!(f, "{refused}"),
        }
    }
}

impl<'r, 't> Group<'r, 't> {
    pub fn new(rt: &'r HostRuntime, title: &'t str) -> Self {
        Group { rt, title }
    }

    // Prints what came, and whether it is what was expected.
    pub fn show(&self, name: &str, expected: Told, came: Told) -> anyhow::Result<()> {
        let Group { rt, title } = *self;
        if came == expected {
            println!(rt; "{title}: {name}: {} ok", Text(came))?;
        } else {
            println!(rt;
                "{title}: {name}: {}, expected {}, differs",
                Text(came),
                Text(expected)
            )?;
        }
        Ok(())
    }
}
