// What responses.txt asks, where the lines of the answer are the response's, each `\r` shown:
//
// > answer KIND         the response, and whether the answer itself closes the connection
// > last KIND           the response where the connection closes
//
// Kinds: accepted PLACE LINE, listing TEXT, bad-command LINE, several-commands, bad-request FAULT, no-route,
// wrong-method METHOD, refused PLACE LINE, refused-read LINE, keeper-fault, log-full N, no-memory
use crate::lines::show_lines;
use anyhow::{Context, Result, bail};
use std::alloc::Global;
use wm_cases::{Subject, bytes_of};
use wm_http::{Answer, Listed, Method, RequestFault, Said, response};

/// Answers and their bytes.
#[derive(Drop)]
pub struct ResponseCases {
    alloc: Global,
}

fn fault_of(text: &str) -> Result<RequestFault> {
    Ok(match text {
        "head" => RequestFault::Head,
        "head-too-large" => RequestFault::HeadTooLarge,
        "transfer-encoding" => RequestFault::TransferEncoding,
        "length" => RequestFault::Length,
        "too-large" => RequestFault::TooLarge,
        "length-required" => RequestFault::LengthRequired,
        _ => bail!("no fault: {text}"),
    })
}

fn method_of(text: &str) -> Result<Method> {
    Ok(match text {
        "GET" => Method::Get,
        "POST" => Method::Post,
        _ => bail!("no method: {text}"),
    })
}

impl ResponseCases {
    pub fn new(alloc: Global) -> ResponseCases {
        ResponseCases { alloc }
    }

    fn line(&self, text: &str) -> Result<Said> {
        match String::from_utf8(bytes_of(self.alloc, text)?) {
            Ok(text) => Ok(Said::new(text)),
            Err(_) => bail!("no UTF-8"),
        }
    }

    fn placed(&self, text: &str) -> Result<(u64, Said)> {
        let (place, line) = text.split_once(' ').context("no place")?;
        Ok((place.parse::<u64>()?, self.line(line)?))
    }

    fn answer_of(&self, kind: &str) -> Result<Answer> {
        let (kind, text) = kind.split_once(' ').unwrap_or((kind, ""));
        match kind {
            "accepted" => {
                let (place, line) = self.placed(text)?;
                Ok(Answer::Accepted(place, line))
            }
            "refused" => {
                let (place, line) = self.placed(text)?;
                Ok(Answer::Refused(place, line))
            }
            "listing" => Ok(Answer::Listing(Listed::new(bytes_of(self.alloc, text)?))),
            "bad-command" => Ok(Answer::BadCommand(self.line(text)?)),
            "refused-read" => Ok(Answer::RefusedRead(self.line(text)?)),
            "bad-request" => Ok(Answer::BadRequest(fault_of(text)?)),
            "wrong-method" => Ok(Answer::WrongMethod(method_of(text)?)),
            "log-full" => Ok(Answer::LogFull(text.parse::<u64>()?)),
            _ => ResponseCases::plain(kind),
        }
    }

    fn plain(kind: &str) -> Result<Answer> {
        match kind {
            "several-commands" => Ok(Answer::SeveralCommands),
            "no-route" => Ok(Answer::NoRoute),
            "keeper-fault" => Ok(Answer::KeeperFault),
            "no-memory" => Ok(Answer::NoMemory),
            _ => bail!("no kind: {kind}"),
        }
    }
}

impl Subject for ResponseCases {
    fn begin(&mut self) -> Result<()> {
        Ok(())
    }

    fn answer(&mut self, question: &str, shown: &mut String) -> Result<()> {
        let (asked, kind) = question.split_once(' ').context("no kind")?;
        let answer = self.answer_of(kind)?;
        let bytes = response(self.alloc, &answer, asked == "last")?;
        show_lines(&bytes, shown)?;
        if asked == "answer" {
            shown.push_str(if answer.closes() {
                "closes\n"
            } else {
                "stays open\n"
            })?;
        }
        Ok(())
    }
}
