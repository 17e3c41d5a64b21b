//! How Redis is reached: where it is, as whom it is asked, and which of its databases is meant.
use crate::fault::{Fault, unreadable};
use crate::options::Options;
use crate::place::{Place, read_port};
use crate::sentinel::primary;
use crate::target::{Target, read_target};
use crate::wire::{Wire, authenticate, connect, select};
use std::env::VarError;
use std::{env, fs};

/// How Redis is reached.
#[derive(Drop)]
pub(crate) struct Reach<'a> {
    /// Where it is, or a Sentinel.
    place: Place,
    /// The name that the Sentinel has for the primary.
    master: Option<&'a str>,
    user: Option<String>,
    password: Option<String>,
    database: u64,
    /// How many milliseconds an answer may take.
    timeout: u64,
}

impl Reach<'_> {
    /// The node that is named; or the primary, as the Sentinel names it now.
    pub(crate) fn node(&self, rt: &HostRuntime) -> Result<Place, Fault> {
        match self.master {
            Some(master) => primary(rt, &self.place, master, self.timeout),
            None => Ok(self.place.clone()?),
        }
    }

    /// A connection to a node, which is told who asks, and for which database.
    pub(crate) fn connect(&self, rt: &HostRuntime, node: &Place) -> Result<Wire, Fault> {
        let mut wire = connect(rt, node, self.timeout)?;
        authenticate(
            &mut wire,
            rt.alloc(),
            self.user.as_ref().map(|text| text.as_str()),
            self.password.as_ref().map(|text| text.as_bytes()),
        )?;
        select(&mut wire, rt.alloc(), self.database)?;
        Ok(wire)
    }
}

/// What the command line and the environment say of it. No connection is opened.
pub(crate) fn read_reach<'a>(rt: &HostRuntime, options: &Options<'a>) -> Result<Reach<'a>, Fault> {
    let Target {
        place,
        user,
        password,
        database,
    } = target_named(rt, options)?;
    let password = password_of(rt, options, password)?;
    let user = match options.user {
        Some(name) => Some(String::from_str(rt.alloc(), name)?),
        None => user,
    };
    if user.is_some() && password.is_none() {
        return Err(Fault::Asked("a user needs a password, from --password-file or REDISCLI_AUTH"));
    }
    Ok(Reach {
        place,
        master: options.master,
        user,
        password,
        database: options.database.or(database).unwrap_or(0),
        timeout: options.timeout,
    })
}

/// Where Redis or a Sentinel is.
fn target_named(rt: &HostRuntime, options: &Options<'_>) -> Result<Target, Fault> {
    match (options.sentinel, options.master) {
        (None, None) => target_of_redis(rt, options),
        (Some(_), None) => Err(Fault::Asked(
            "--sentinel: it needs --master, the name of the primary",
        )),
        (None, Some(_)) => Err(Fault::Asked("--master: it needs --sentinel, where a Sentinel is")),
        (Some(_), Some(_)) if options.redis.is_some() => Err(Fault::Asked(
            "--sentinel: it says where Redis is, so there is no --redis beside it",
        )),
        (Some(text), Some(_)) if text.contains('/') || text.contains('@') => {
            Err(Fault::Asked("--sentinel: it has to be HOST:PORT"))
        }
        (Some(text), Some(_)) => {
            Ok(Target::at(read_port(rt.alloc(), "--sentinel", text, None)?))
        }
    }
}

/// Where Redis is by --redis, or else by REDIS_URL.
fn target_of_redis(rt: &HostRuntime, options: &Options<'_>) -> Result<Target, Fault> {
    let Some(text) = options.redis else {
        return match variable(rt, "REDIS_URL")? {
            Some(text) => read_target(rt.alloc(), "REDIS_URL", text.as_str()),
            None => read_target(rt.alloc(), "--redis", "127.0.0.1:6379"),
        };
    };
    let target = read_target(rt.alloc(), "--redis", text)?;
    if target.password.is_some() {
        return Err(Fault::Asked(
            "--redis: all users of this machine can see a password there: it has --password-file, REDISCLI_AUTH or REDIS_URL",
        ));
    }
    if target.user.is_some() && options.user.is_some() {
        return Err(Fault::Asked("--user: the URL of --redis names a user as well"));
    }
    if target.database.is_some() && options.database.is_some() {
        return Err(Fault::Asked("--db: the URL of --redis names a database as well"));
    }
    Ok(target)
}

/// The password: that of the file, without a line end behind it; or that of REDIS_URL, which belongs to its user; or
/// that of REDISCLI_AUTH.
fn password_of(
    rt: &HostRuntime,
    options: &Options<'_>,
    of_url: Option<String>,
) -> Result<Option<String>, Fault> {
    if let Some(path) = options.password_file {
        return match fs::read_to_string(rt, path) {
            Ok(text) => Ok(Some(String::from_str(rt.alloc(), without_line_end(text.as_str()))?)),
            Err(error) => Err(unreadable(rt.alloc(), "password", path, error)),
        };
    }
    if of_url.is_some() && options.user.is_none() {
        return Ok(of_url);
    }
    variable(rt, "REDISCLI_AUTH")
}

/// The text without the line ends behind it.
fn without_line_end(text: &str) -> &str {
    text.trim_end_matches(|one: char| one == '\n' || one == '\r')
}

/// The value of a variable of the environment.
fn variable(rt: &HostRuntime, name: &'static str) -> Result<Option<String>, Fault> {
    match env::var(rt, name) {
        Ok(text) => Ok(Some(text)),
        Err(VarError::NotPresent) => Ok(None),
        Err(VarError::NotUnicode) => Err(Fault::Named(name, "it is not UTF-8")),
        Err(VarError::OutOfMemory) => Err(Fault::Memory),
    }
}
