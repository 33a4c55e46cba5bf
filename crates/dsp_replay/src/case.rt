use std::alloc::Global;

/// Why a line is no case.
#[derive(Debug, Drop)]
pub struct NoCase;

/// How the ports of a case behave: which call of each fails, counted from 1, where 0 is none; how many bytes
/// a call passes at most; how many the output holds; and how many of the input are to be taken and of the other
/// file are to be seen, where that is told.
#[derive(Clone, Copy, Debug, PartialEq, Eq)]
pub struct Ports {
    pub script: u32,
    pub input: u32,
    pub output: u32,
    pub report: u32,
    pub other: u32,
    pub piece: usize,
    pub room: usize,
    pub taken: Option<usize>,
    pub seen: Option<usize>,
}

/// How many bytes a call passes where the case does not say it.
const PIECE: usize = 7;

/// How many bytes the output holds where the case does not say it.
const ROOM: usize = 1 << 20;

impl Ports {
    /// Ports that do not fail.
    pub const GOOD: Ports = Ports {
        script: 0,
        input: 0,
        output: 0,
        report: 0,
        other: 0,
        piece: PIECE,
        room: ROOM,
        taken: None,
        seen: None,
    };

    /// The same but for what the words `NAME NUMBER` say.
    fn with(self, name: &str, number: u32) -> Result<Ports, NoCase> {
        let mut ports = self;
        match name {
            "script" => ports.script = number,
            "input" => ports.input = number,
            "output" => ports.output = number,
            "report" => ports.report = number,
            "other" => ports.other = number,
            "piece" => ports.piece = number as usize,
            "room" => ports.room = number as usize,
            "taken" => ports.taken = Some(number as usize),
            "seen" => ports.seen = Some(number as usize),
            _ => return Err(NoCase),
        }
        Ok(ports)
    }

    /// What pairs of words say.
    fn parse(field: Option<&str>) -> Result<Ports, NoCase> {
        let mut ports = Ports::GOOD;
        let Some(text) = field else {
            return Ok(ports);
        };
        for pair in text.split(',') {
            let Some((name, number)) = pair.split_once(' ') else {
                return Err(NoCase);
            };
            let Ok(number) = number.parse::<u32>() else {
                return Err(NoCase);
            };
            ports = ports.with(name, number)?;
        }
        Ok(ports)
    }
}

/// Commands, the bytes of their script and input, and what each must answer, report and write; of a check the
/// output is the file that it reads, and nothing is written.
#[derive(Drop)]
pub struct Case {
    pub commands: String,
    pub script: Vec<u8>,
    pub input: Vec<u8>,
    pub status: u8,
    pub report: Vec<u8>,
    pub output: Vec<u8>,
    pub ports: Ports,
}

/// The bytes of a field: of a text behind `=`, whose semicolons end lines, else in hex.
fn bytes(alloc: Global, field: Option<&str>) -> Result<Vec<u8>, NoCase> {
    let Some(field) = field else {
        return Err(NoCase);
    };
    match field.strip_prefix('=') {
        Some(text) => lines(alloc, text),
        None => hex::decode(alloc, field).map_err(|_| NoCase),
    }
}

/// A text with a line feed for each semicolon.
fn lines(alloc: Global, text: &str) -> Result<Vec<u8>, NoCase> {
    let Ok(mut bytes) = text.as_bytes().to_vec(alloc) else {
        return Err(NoCase);
    };
    for byte in bytes.iter_mut() {
        if *byte == b';' {
            *byte = b'\n';
        }
    }
    Ok(bytes)
}

impl Case {
    /// The case of a line.
    pub fn parse(alloc: Global, line: &str) -> Result<Case, NoCase> {
        let mut fields = line.split('|');
        let Some(commands) = fields.next() else {
            return Err(NoCase);
        };
        let Ok(commands) = String::from_str(alloc, commands) else {
            return Err(NoCase);
        };
        let script = bytes(alloc, fields.next())?;
        let input = bytes(alloc, fields.next())?;
        let Some(status) = fields.next() else {
            return Err(NoCase);
        };
        let Ok(status) = status.parse::<u8>() else {
            return Err(NoCase);
        };
        let report = bytes(alloc, fields.next())?;
        let output = bytes(alloc, fields.next())?;
        let ports = Ports::parse(fields.next())?;
        Ok(Case {
            commands,
            script,
            input,
            status,
            report,
            output,
            ports,
        })
    }
}
