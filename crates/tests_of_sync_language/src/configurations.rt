//! What a configuration says, and which of its members is bad first.

use crate::texts::{cut, write_all, write_many};
use gateway_config::{Config, ConfigFault, ConfigRole, ConfigUser, read_config};
use sg_history::{ConfigWhy, write_decimal};
use sg_names::{Channels, Name, Names};
use sg_outside::Bytes;
use std::alloc::{AllocError, Global};
use std::test::Fail;

/// Configurations, one a line: before each what it says in words, or the way to its first bad member and why that is bad. `%` stands
/// for the byte FF, `^` for a hundred letters `d`, and `&` for 100,000 opening brackets.
const READ: &str = "\
db 127.0.0.1:4984 4294967295 true 2. user ann A, none s1. ;\
{\"database\":\"db\",\"users\":[{\"name\":\"ann\",\"channels\":[\"A\"],\"session\":\"s1\"}]}\n\
a-z_0 127.0.0.1:4984 4294967295 true 2. ; { \"database\" : \"a-z_0\" } \n\
db [::1]:80 1 false 2. ;{\"conflicts\":false,\"accepts\":1,\"bind\":\"[::1]:80\",\"database\":\"db\"}\n\
db  4294967295 true 2. ;{\"database\":\"db\",\"bind\":\"\",\"accepts\":4294967295,\"conflicts\":true,\"roles\":[],\"users\":[]}\n\
db 127.0.0.1:4984 4294967295 true 2. ;{\"database\":\"x\",\"database\":\"db\"}\n\
db 127.0.0.1:4984 4294967295 true 1. ;{\"database\":\"db\",\"sync\":\"function(doc) {}\"}\n\
db 127.0.0.1:4984 4294967295 true 2. role staff B,A,B,. role r none. ;\
{\"database\":\"db\",\"roles\":[{\"channels\":[\"B\",\"A\",\"B\"],\"name\":\"staff\"},{\"name\":\"r\"}]}\n\
db 127.0.0.1:4984 4294967295 true 2. user ann !,*, staff,a,staff, Az-_9. user r none none none. ;\
{\"database\":\"db\",\"users\":[{\"name\":\"ann\",\"channels\":[\"!\",\"*\"],\"roles\":[\"staff\",\"a\",\"staff\"],\"session\":\"Az-_9\"},\
{\"name\":\"r\",\"channels\":[],\"roles\":[]}]}\n\
db 127.0.0.1:4984 4294967295 true 2. role ann none. user ann none none none. ;\
{\"database\":\"db\",\"users\":[{\"name\":\"ann\"}],\"roles\":[{\"name\":\"ann\"}]}\n\
NotJson ;\n\
NotJson ;{\n\
NotJson ;{\"database\":\"db\"}}\n\
NotJson ;{\"database\":\"db\",\"accepts\":1e999}\n\
NotObject ;[]\n\
NotObject ;null\n\
NotObject ;\"database\"\n\
Missing /database;{}\n\
Missing /database;{\"colour\":1,\"bind\":1}\n\
Value /database;{\"database\":null}\n\
Value /database;{\"database\":\"\"}\n\
Value /database;{\"database\":\"dB\"}\n\
Value /database;{\"database\":\"d.b\",\"bind\":0}\n\
Value /bind;{\"database\":\"db\",\"bind\":null,\"accepts\":0}\n\
Value /accepts;{\"database\":\"db\",\"accepts\":0,\"conflicts\":1}\n\
Value /accepts;{\"database\":\"db\",\"accepts\":4294967296}\n\
Value /accepts;{\"database\":\"db\",\"accepts\":-1}\n\
Value /accepts;{\"database\":\"db\",\"accepts\":1.0}\n\
Value /accepts;{\"database\":\"db\",\"accepts\":\"1\"}\n\
Value /conflicts;{\"database\":\"db\",\"conflicts\":\"true\",\"sync\":1}\n\
Value /sync;{\"database\":\"db\",\"sync\":null}\n\
Sync /sync;{\"database\":\"db\",\"sync\":\"\",\"roles\":1}\n\
Sync /sync;{\"database\":\"db\",\"sync\":\"function(doc) { while }\"}\n\
Sync /sync;{\"database\":\"db\",\"sync\":\"function(doc) { x = 1; }\"}\n\
Sync /sync;{\"database\":\"db\",\"sync\":\"function(doc) { channel(); }\"}\n\
Value /roles;{\"database\":\"db\",\"roles\":{},\"users\":1}\n\
Value /roles/0;{\"database\":\"db\",\"roles\":[\"staff\"]}\n\
Missing /roles/1/name;{\"database\":\"db\",\"roles\":[{\"name\":\"a\"},{\"channels\":1,\"colour\":1}]}\n\
Value /roles/0/name;{\"database\":\"db\",\"roles\":[{\"name\":\"a:b\"},1]}\n\
Value /roles/0/name;{\"database\":\"db\",\"roles\":[{\"name\":[\"a\"]}]}\n\
Twice /roles/2/name;{\"database\":\"db\",\"roles\":[{\"name\":\"a\"},{\"name\":\"b\"},{\"name\":\"a\",\"channels\":1}]}\n\
Value /roles/0/channels;{\"database\":\"db\",\"roles\":[{\"name\":\"a\",\"channels\":\"A\",\"roles\":[]}]}\n\
Value /roles/0/channels;{\"database\":\"db\",\"roles\":[{\"name\":\"a\",\"channels\":[\"A\",\"B,C\"]}]}\n\
Unknown /roles/0/roles;{\"database\":\"db\",\"roles\":[{\"name\":\"a\",\"session\":\"s\",\"roles\":[]}],\"users\":0}\n\
Value /users;{\"database\":\"db\",\"users\":null,\"colour\":1}\n\
Value /users/0;{\"database\":\"db\",\"users\":[[]]}\n\
Missing /users/0/name;{\"database\":\"db\",\"users\":[{}]}\n\
Value /users/0/name;{\"database\":\"db\",\"users\":[{\"name\":\"-\"}]}\n\
Twice /users/1/name;{\"database\":\"db\",\"users\":[{\"name\":\"a\"},{\"name\":\"a\"}]}\n\
Value /users/0/channels;{\"database\":\"db\",\"users\":[{\"name\":\"a\",\"channels\":[1],\"roles\":1}]}\n\
Value /users/0/roles;{\"database\":\"db\",\"users\":[{\"name\":\"a\",\"roles\":[\"b\",\"c=d\"],\"session\":1}]}\n\
Value /users/0/session;{\"database\":\"db\",\"users\":[{\"name\":\"a\",\"session\":\"a.b\",\"colour\":1}]}\n\
Value /users/0/session;{\"database\":\"db\",\"users\":[{\"name\":\"a\",\"session\":\"\"}]}\n\
Value /users/0/session;{\"database\":\"db\",\"users\":[{\"name\":\"a\",\"session\":null}]}\n\
Twice /users/2/session;{\"database\":\"db\",\"users\":[{\"name\":\"a\",\"session\":\"s\"},{\"name\":\"s\"},{\"name\":\"c\",\"session\":\"s\",\"b\":1}]}\n\
Unknown /users/0/colour;{\"database\":\"db\",\"users\":[{\"size\":1,\"name\":\"a\",\"colour\":1},{}],\"colour\":1}\n\
Unknown /colour;{\"database\":\"db\",\"colour\":1}\n\
Unknown /_id/~\u{e9};{\"size\":1,\"_id/~\\u00e9\":1,\"database\":\"db\"}\n\
Unknown /;{\"database\":\"db\",\"\":1}\n\
^ 127.0.0.1:4984 4294967295 true 2. ;{\"database\":\"^\"}\n\
Value /database;{\"database\":\"^d\"}\n\
NotJson ;{\"database\":\"d%b\"}\n\
NotJson ;&";

fn write_if(is: bool, word: &[u8], text: &mut Bytes) -> Result<(), AllocError> {
    text.extend_from_slice(if is { word } else { b"" })
}

fn write_channels(channels: &Channels, text: &mut Bytes) -> Result<(), AllocError> {
    for channel in channels.as_slice() {
        write_all(&[channel.as_bytes(), b","], text)?;
    }
    write_if(channels.as_slice().is_empty(), b"none", text)
}

fn write_names(names: &Names, text: &mut Bytes) -> Result<(), AllocError> {
    for name in names.as_slice() {
        write_all(&[name.as_bytes(), b","], text)?;
    }
    write_if(names.as_slice().is_empty(), b"none", text)
}

/// A word, a name and a blank behind each, and channels.
fn write_principal(
    word: &[u8],
    name: &Name,
    channels: &Channels,
    text: &mut Bytes,
) -> Result<(), AllocError> {
    write_all(&[word, name.as_bytes(), b" "], text)?;
    write_channels(channels, text)
}

fn write_role(role: &ConfigRole, text: &mut Bytes) -> Result<(), AllocError> {
    write_principal(b"role ", &role.name, &role.channels, text)?;
    text.extend_from_slice(b". ")
}

/// The session of a user between blanks.
fn write_session(user: &ConfigUser, text: &mut Bytes) -> Result<(), AllocError> {
    match &user.session {
        Some(session) => write_all(&[b" ", session.as_str().as_bytes(), b". "], text),
        None => text.extend_from_slice(b" none. "),
    }
}

fn write_roles_of(user: &ConfigUser, text: &mut Bytes) -> Result<(), AllocError> {
    text.push(b' ')?;
    write_names(&user.roles, text)?;
    write_session(user, text)
}

fn write_user(user: &ConfigUser, text: &mut Bytes) -> Result<(), AllocError> {
    write_principal(b"user ", &user.name, &user.channels, text)?;
    write_roles_of(user, text)
}

/// How many parameters the sync function has.
fn parameters(config: &Config) -> &'static [u8] {
    match config.program.as_program().as_tree().second {
        Some(_) => b"2. ",
        None => b"1. ",
    }
}

fn write_settings(config: &Config, text: &mut Bytes) -> Result<(), AllocError> {
    let conflicts: &[u8] = if config.conflicts {
        b" true "
    } else {
        b" false "
    };
    let (database, bind) = (config.database.as_str(), config.bind.as_str());
    write_all(&[database.as_bytes(), b" ", bind.as_bytes(), b" "], text)?;
    write_decimal(config.accepts, text)?;
    write_all(&[conflicts, parameters(config)], text)
}

fn write_roles(config: &Config, text: &mut Bytes) -> Result<(), AllocError> {
    for role in config.roles.as_slice() {
        write_role(role, text)?;
    }
    Ok(())
}

fn write_users(config: &Config, text: &mut Bytes) -> Result<(), AllocError> {
    for user in config.users.as_slice() {
        write_user(user, text)?;
    }
    Ok(())
}

fn write_config(config: &Config, text: &mut Bytes) -> Result<(), AllocError> {
    write_settings(config, text)?;
    write_roles(config, text)?;
    write_users(config, text)
}

fn why_word(why: &ConfigWhy) -> &'static [u8] {
    match why {
        ConfigWhy::NotJson => b"NotJson",
        ConfigWhy::NotObject => b"NotObject",
        ConfigWhy::Missing => b"Missing",
        ConfigWhy::Unknown => b"Unknown",
        ConfigWhy::Value => b"Value",
        ConfigWhy::Twice => b"Twice",
        ConfigWhy::Sync => b"Sync",
    }
}

fn write_read(alloc: Global, config: &[u8], text: &mut Bytes) -> Result<(), AllocError> {
    match read_config(alloc, config) {
        Ok(config) => write_config(&config, text),
        Err(ConfigFault::Bad { path, why }) => {
            write_all(&[why_word(&why), b" ", path.as_str().as_bytes()], text)
        }
        Err(ConfigFault::Memory) => text.extend_from_slice(b"no answer"),
    }
}

/// What a byte of a table stands for.
fn write_meant(byte: u8, bytes: &mut Bytes) -> Result<(), AllocError> {
    match byte {
        b'%' => bytes.push(0xff),
        b'^' => write_many(b'd', 100, bytes),
        b'&' => write_many(b'[', 100_000, bytes),
        _ => bytes.push(byte),
    }
}

fn meant(alloc: Global, text: &str) -> Result<Bytes, AllocError> {
    let mut bytes = Bytes::new(alloc);
    for byte in text.as_bytes() {
        write_meant(*byte, &mut bytes)?;
    }
    Ok(bytes)
}

/// Whether bytes are read as this, in words.
fn is_read_as(alloc: Global, config: &[u8], want: &[u8]) -> Result<bool, AllocError> {
    let mut text = Bytes::new(alloc);
    write_read(alloc, config, &mut text)?;
    Ok(text.as_slice() == want)
}

fn is_right(alloc: Global, line: &str) -> Result<bool, AllocError> {
    let (want, config) = cut(line, ';');
    let want = meant(alloc, want)?;
    let config = meant(alloc, config)?;
    is_read_as(alloc, config.as_slice(), want.as_slice())
}

#[test]
fn what_a_configuration_is_read_as(rt: HostRuntime) -> Result<(), Fail> {
    for line in READ.split('\n') {
        assert!(rt; is_right(rt.alloc(), line)?, "{line}");
    }
    Ok(())
}

/// A text and a number behind it.
fn write_numbered(word: &[u8], number: u64, bytes: &mut Bytes) -> Result<(), AllocError> {
    bytes.extend_from_slice(word)?;
    write_decimal(number, bytes)
}

fn write_each(count: u64, bytes: &mut Bytes) -> Result<(), AllocError> {
    for place in 0..count {
        write_numbered(b"{\"name\":\"u", place, bytes)?;
        write_numbered(b"\",\"session\":\"s", place, bytes)?;
        bytes.extend_from_slice(b"\"},")?;
    }
    Ok(())
}

/// A configuration of so many users, each with a session, of whom the last has the name of the first.
fn with_users(alloc: Global, count: u64) -> Result<Bytes, AllocError> {
    let mut bytes = Bytes::from_slice(alloc, b"{\"database\":\"db\",\"users\":[")?;
    write_each(count, &mut bytes)?;
    bytes.extend_from_slice(b"{\"name\":\"u0\"}]}")?;
    Ok(bytes)
}

#[test]
fn a_name_is_found_again_among_many(rt: HostRuntime) -> Result<(), Fail> {
    let alloc = rt.alloc();
    let config = with_users(alloc, 1_000)?;
    assert!(rt; is_read_as(alloc, config.as_slice(), b"Twice /users/1000/name")?);
    Ok(())
}
