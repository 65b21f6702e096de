// What requests.txt asks:
//
// > cut TEXT            what is cut from the bytes
// > grow TEXT           the same of the bytes as they come one by one: from how many on it isn't to read on, and what it is then
//
// A request is told by its method and its target, its body, how many bytes it has, and whether the connection closes.
use anyhow::Result;
use std::alloc::Global;
use wm_cases::{Subject, bytes_of, visible};
use wm_http::{Cut, RequestFault, cut};

/// Requests, cut from bytes.
#[derive(Drop)]
pub struct RequestCases {
    alloc: Global,
}

fn fault_text(fault: RequestFault) -> &'static str {
    match fault {
        RequestFault::Head => "400 HEAD\n",
        RequestFault::HeadTooLarge => "431 HEAD TOO LARGE\n",
        RequestFault::TransferEncoding => "501 TRANSFER ENCODING\n",
        RequestFault::Length => "400 LENGTH\n",
        RequestFault::TooLarge => "413 TOO LARGE\n",
        RequestFault::LengthRequired => "411 LENGTH REQUIRED\n",
    }
}

impl RequestCases {
    pub fn new(alloc: Global) -> RequestCases {
        RequestCases { alloc }
    }

    fn tell(&self, cut: Cut<'_>, answer: &mut String) -> Result<()> {
        match cut {
            Cut::ReadOn(most) => write!(answer, "read on {most}\n")?,
            Cut::Refused(fault) => answer.push_str(fault_text(fault))?,
            Cut::Whole(request) => {
                let method = visible(self.alloc, request.method)?;
                let target = visible(self.alloc, request.target)?;
                let body = visible(self.alloc, request.body)?;
                let end = if request.closes { ", closes" } else { "" };
                write!(
                    answer,
                    "{method} {target}\n[{body}]\n{} bytes{end}\n",
                    request.len
                )?;
            }
        }
        Ok(())
    }

    fn grow(&self, bytes: &[u8], answer: &mut String) -> Result<()> {
        for len in 0..bytes.len() {
            let first = cut(&bytes[..len]);
            if let Cut::ReadOn(_) = first {
                continue;
            }
            write!(answer, "from {len} bytes on\n")?;
            return self.tell(first, answer);
        }
        answer.push_str("with all bytes\n")?;
        self.tell(cut(bytes), answer)
    }
}

impl Subject for RequestCases {
    fn begin(&mut self) -> Result<()> {
        Ok(())
    }

    fn answer(&mut self, question: &str, answer: &mut String) -> Result<()> {
        let (asked, text) = question.split_once(' ').unwrap_or((question, ""));
        let bytes = bytes_of(self.alloc, text)?;
        match asked {
            "cut" => self.tell(cut(&bytes), answer),
            "grow" => self.grow(&bytes, answer),
            _ => anyhow::bail!("no question: {asked}"),
        }
    }
}
