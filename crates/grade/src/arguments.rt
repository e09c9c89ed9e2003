//! What the command line asks for.
use anyhow::{Result, anyhow, bail};
use layout::MOST_BYTES;
use mysql::MysqlType;
use std::env;

pub const HELP: &str = "\
grade [--arena BYTES] [--types TYPE,..] FILE..

Loads class lists and prints them as tables. Each FILE is a recorded result (a tape) with
three columns: class, outlet, and diameter in tenths of a millimetre. An option holds for
the files after it.

  --arena BYTES    how much memory the rows are read into, 0 to 65536 bytes; else 65536
  --types TYPE,..  the types that the columns are asked for, in order, - for a column's own;
                   else Long,String,Long
  --help           prints this

A TYPE is Tiny, UnsignedTiny, Short, UnsignedShort, Long, UnsignedLong, LongLong,
UnsignedLongLong, Float, Double, Numeric, Time, Date, DateTime, Timestamp, String, Blob,
Bit, Set or Enum.

A row that is refused is passed over, and the table says why; so it does for a value that
cannot be read. The exit status is 0 where every list was loaded, whether or not rows of it
were refused, and 1 where one could not be loaded or the command line is wrong.
";

/// The types of class, outlet and diameter where no others are asked for.
const USUAL_TYPES: &str = "Long,String,Long";

/// A list to load: the file, the length of the arena, and the wanted types.
#[derive(Drop)]
pub struct Job {
    pub name: String,
    pub arena: usize,
    pub wanted: Vec<Option<MysqlType>>,
}

#[derive(Drop)]
pub enum Asked {
    Help,
    Load(Vec<Job>),
}

/// Goes through the words of the command line.
pub fn read_arguments(rt: &HostRuntime) -> Result<Asked> {
    let mut jobs = Vec::new(rt.alloc());
    let mut arena = MOST_BYTES;
    let mut wanted = wanted_types(rt, USUAL_TYPES)?;
    let mut words = env::args(rt)?.skip(1);
    while let Some(word) = words.next() {
        match word.as_str() {
            "--help" => return Ok(Asked::Help),
            "--arena" => arena = arena_length(words.next())?,
            "--types" => wanted = types_after(rt, words.next())?,
            option if option.starts_with("--") => bail!(
                "there is no option {option}; see grade --help"
            ),
            _ => jobs.push(Job {
                name: word,
                arena,
                wanted: wanted.clone()?,
            })?,
        }
    }
    if jobs.is_empty() {
        bail!("name the class lists to load: grade FILE..; see grade --help");
    }
    Ok(Asked::Load(jobs))
}

fn arena_length(word: Option<String>) -> Result<usize> {
    let Some(word) = word else {
        bail!("--arena wants a number of bytes, 0 to 65536");
    };
    match word.parse::<usize>() {
        Ok(length) if length <= MOST_BYTES => Ok(length),
        _ => Err(anyhow!("--arena {word}: an arena has 0 to 65536 bytes")),
    }
}

fn types_after(rt: &HostRuntime, word: Option<String>) -> Result<Vec<Option<MysqlType>>> {
    match word {
        Some(word) => wanted_types(rt, word.as_str()),
        None => Err(anyhow!("--types wants the names of types, with commas between them")),
    }
}

fn wanted_types(rt: &HostRuntime, names: &str) -> Result<Vec<Option<MysqlType>>> {
    let mut wanted = Vec::new(rt.alloc());
    for name in names.split(',') {
        wanted.push(wanted_type(name)?)?;
    }
    Ok(wanted)
}

/// The type of a name, or none for a dash.
fn wanted_type(name: &str) -> Result<Option<MysqlType>> {
    Ok(Some(match name {
        "-" => return Ok(None),
        "Tiny" => MysqlType::Tiny,
        "UnsignedTiny" => MysqlType::UnsignedTiny,
        "Short" => MysqlType::Short,
        "UnsignedShort" => MysqlType::UnsignedShort,
        "Long" => MysqlType::Long,
        "UnsignedLong" => MysqlType::UnsignedLong,
        "LongLong" => MysqlType::LongLong,
        "UnsignedLongLong" => MysqlType::UnsignedLongLong,
        "Float" => MysqlType::Float,
        "Double" => MysqlType::Double,
        "Numeric" => MysqlType::Numeric,
        "Time" => MysqlType::Time,
        "Date" => MysqlType::Date,
        "DateTime" => MysqlType::DateTime,
        "Timestamp" => MysqlType::Timestamp,
        "String" => MysqlType::String,
        "Blob" => MysqlType::Blob,
        "Bit" => MysqlType::Bit,
        "Set" => MysqlType::Set,
        "Enum" => MysqlType::Enum,
        _ => bail!("there is no type {name}; see grade --help for their names"),
    }))
}
