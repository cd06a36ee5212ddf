// What the program is started with: finder [--code bits|packets] [IMAGE]
use super::trouble::Mistake;
use std::str::FromStr;
use std::{env, fmt};

#[derive(Clone, Copy, PartialEq, Eq)]
pub enum CodeName {
    Bits,
    Packets,
}

impl FromStr for CodeName {
    type Err = Mistake;

    fn from_str(name: &str) -> Result<CodeName, Mistake> {
        match name {
            "bits" => Ok(CodeName::Bits),
            "packets" => Ok(CodeName::Packets),
            _ => Err(Mistake::Usage),
        }
    }
}

impl fmt::Display for CodeName {
    fn fmt<W: fmt::Write>(&self, f: &mut fmt::Formatter<W>) -> fmt::Result {
        f.write_str(match self {
            CodeName::Bits => "bits",
            CodeName::Packets => "packets",
        })
    }
}

#[derive(Drop)]
pub struct Options {
    pub code: CodeName,
    pub image: Option<String>,
}

pub fn read_options(rt: &HostRuntime) -> Result<Options, Mistake> {
    let mut args = env::args(rt).map_err(|_| Mistake::Usage)?;
    let _ = args.next();
    let mut code = CodeName::Bits;
    let mut image = None;
    while let Some(arg) = args.next() {
        if arg.as_str() == "--code" {
            let name = args.next().ok_or(Mistake::Usage)?;
            code = name.as_str().parse()?;
        } else if arg.as_str().starts_with("--") || image.is_some() {
            return Err(Mistake::Usage);
        } else {
            image = Some(arg);
        }
    }
    Ok(Options { code, image })
}
