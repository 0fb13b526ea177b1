use super::{HEAD, text, told_fault};
use mesh_base::Memory;
use mesh_text::{Ip, PartName};
use scenario_lang::{
    Action, Cluster, Mode, Pod, RawWrite, Remote, Scenario, Withdrawn, read_scenario,
};
use std::alloc::Global;
use test_cases::{Answers, Wrong, each_line_holds};

fn shown(bytes: &[u8]) -> &str {
    str::from_utf8(bytes).unwrap_or("no text")
}

fn told_remote(alloc: Global, remote: &Remote) -> Result<String, Memory> {
    let Remote { name, number, hop } = remote;
    let name = shown(name.as_bytes());
    Ok(format!(in alloc; "remote {name} {number} {hop:?}, ")?)
}

fn told_remotes(alloc: Global, remotes: &[Remote]) -> Result<String, Memory> {
    let mut told = String::new(alloc);
    for remote in remotes {
        told.push_str(told_remote(alloc, remote)?.as_str())?;
    }
    Ok(told)
}

fn told_local(alloc: Global, local: &Cluster) -> Result<String, Memory> {
    let Cluster { name, number } = local;
    let name = shown(name.as_bytes());
    Ok(format!(in alloc; "local {name} {number}")?)
}

fn told_header(alloc: Global, scenario: &Scenario) -> Result<String, Memory> {
    let local = told_local(alloc, &scenario.local)?;
    let lease = scenario.lease;
    let remotes = told_remotes(alloc, scenario.remotes.as_slice())?;
    let actions = scenario.actions.len();
    Ok(format!(in alloc; "{local}, lease {lease:?}, {remotes}{actions} actions")?)
}

/// Answers the header of a text and the number of its actions.
#[derive(Drop)]
struct Header;

impl Answers for Header {
    fn answer(&mut self, alloc: Global, asked: &str) -> Result<String, Memory> {
        let text = text(alloc, asked)?;
        match read_scenario(alloc, text.as_bytes(), Mode::Step)? {
            Ok(scenario) => told_header(alloc, &scenario),
            Err(fault) => told_fault(alloc, Some(fault)),
        }
    }
}

const HEADERS: &str = "\
mesh 1|  local  home 9 |# a comment||lease 30|remote east 1 direct|remote west-2 255 direct| => local home 9, lease Some(30), remote east 1 State, remote west-2 255 State, 0 actions
";

#[test]
fn the_header_is_read(rt: HostRuntime) -> Result<(), Wrong> {
    each_line_holds(&mut Header, rt.alloc(), HEADERS)
}

const ACTIONS_AGAIN: &str = "\
mesh 1|local home 9|remote east 1 direct|turn agent east all|turn agent east all|restart agent|report|restart agent|turn agent east 3| => local home 9, lease None, remote east 1 State, 6 actions
";

#[test]
fn turns_and_restarts_come_again(rt: HostRuntime) -> Result<(), Wrong> {
    each_line_holds(&mut Header, rt.alloc(), ACTIONS_AGAIN)
}

fn told_node(
    alloc: Global,
    remote: usize,
    name: &PartName,
    addresses: &[Ip],
) -> Result<String, Memory> {
    let name = shown(name.as_bytes());
    Ok(format!(in alloc; "Node {{ remote: {remote}, name: {name}, addresses: {addresses:?} }}")?)
}

fn told_pod(alloc: Global, pod: &Option<Pod>) -> Result<String, Memory> {
    let Some(Pod { namespace, name }) = pod else {
        return Ok("None".to_string(alloc)?);
    };
    let namespace = shown(namespace.as_bytes());
    let name = shown(name.as_bytes());
    Ok(format!(in alloc; "{namespace}/{name}")?)
}

fn told_withdrawn(alloc: Global, record: &Withdrawn) -> Result<String, Memory> {
    match record {
        Withdrawn::Node(name) => { Ok(format!(in alloc; "Node({})", shown(name.as_bytes()))?) }
        other => Ok(format!(in alloc; "{other:?}")?),
    }
}

fn told_write(alloc: Global, write: &RawWrite) -> Result<String, Memory> {
    match write {
        RawWrite::Put { key, value } => {
            let key = shown(key.as_slice());
            let value = shown(value.as_slice());
            Ok(format!(in alloc; "Put {{ key: '{key}', value: '{value}' }}")?)
        }
        RawWrite::Delete { key } => {
            Ok(format!(in alloc; "Delete {{ key: '{}' }}", shown(key.as_slice()))?)
        }
    }
}

/// The action as `Debug` has it, with names and bytes as texts, and with the number of labels.
fn told_action(alloc: Global, action: &Action) -> Result<String, Memory> {
    match action {
        Action::Node {
            remote,
            name,
            addresses,
        } => told_node(alloc, *remote, name, addresses.as_slice()),
        Action::Identity {
            remote,
            identity,
            labels,
        } => {
            let labels = labels.labels.len();
            Ok(format!(in alloc;
                "Identity {{ remote: {remote}, identity: {identity}, labels: {labels} }}"
            )?)
        }
        Action::Address {
            remote,
            ip,
            identity,
            host,
            pod,
        } => {
            let pod = told_pod(alloc, pod)?;
            Ok(format!(in alloc;
                "Address {{ remote: {remote}, ip: {ip:?}, identity: {identity}, host: {host:?}, pod: {pod} }}"
            )?)
        }
        Action::Withdraw { remote, record } => {
            let record = told_withdrawn(alloc, record)?;
            Ok(format!(in alloc; "Withdraw {{ remote: {remote}, record: {record} }}")?)
        }
        Action::Raw { remote, write } => {
            let write = told_write(alloc, write)?;
            Ok(format!(in alloc; "Raw {{ remote: {remote}, write: {write} }}")?)
        }
        other => Ok(format!(in alloc; "{other:?}")?),
    }
}

fn told_actions(alloc: Global, actions: &[Action]) -> Result<String, Memory> {
    let mut told = String::new(alloc);
    for action in actions {
        told.push_str(told_action(alloc, action)?.as_str())?;
    }
    Ok(told)
}

/// Answers the actions of lines behind a head with the remotes `east` and `west`.
#[derive(Drop)]
struct Actions;

impl Answers for Actions {
    fn answer(&mut self, alloc: Global, asked: &str) -> Result<String, Memory> {
        let written = format!(in alloc; "{HEAD}remote west 2 direct|{asked}")?;
        let text = text(alloc, written.as_str())?;
        match read_scenario(alloc, text.as_bytes(), Mode::Step)? {
            Ok(scenario) => told_actions(alloc, scenario.actions.as_slice()),
            Err(fault) => told_fault(alloc, Some(fault)),
        }
    }
}

const OF_RECORDS: &str = "\
node west n1.prod 10.0.0.1 2001:db8::1| => Node { remote: 1, name: n1.prod, addresses: [V4(167772161), V6(42540766411282592856903984951653826561)] }
identity west 131328 k8s:app=web;k8s:b=;| => Identity { remote: 1, identity: 131328, labels: 2 }
identity east 4294967295 -| => Identity { remote: 0, identity: 4294967295, labels: 0 }
address east 10.0.0.5 65792 -| => Address { remote: 0, ip: V4(167772165), identity: 65792, host: None, pod: None }
address east ::1 0 10.0.0.1 prod web-0| => Address { remote: 0, ip: V6(1), identity: 0, host: Some(V4(167772161)), pod: prod/web-0 }
withdraw west node node| => Withdraw { remote: 1, record: Node(node) }
withdraw west identity 7| => Withdraw { remote: 1, record: Identity(7) }
withdraw west address 0.0.0.7| => Withdraw { remote: 1, record: Address(V4(7)) }
";

#[test]
fn each_action_is_read(rt: HostRuntime) -> Result<(), Wrong> {
    each_line_holds(&mut Actions, rt.alloc(), OF_RECORDS)
}

const OF_EXPORTERS_AND_STORES: &str = "\
start west| => Start { remote: 1 }
stop west| => Stop { remote: 1 }
keep east| => Keep { remote: 0 }
export west all| => Export { remote: 1, count: All }
export west 2| => Export { remote: 1, count: Of(2) }
tick 1000000000| => Tick { seconds: 1000000000 }
report| => Report
";

#[test]
fn each_action_of_an_exporter_or_a_store_is_read(rt: HostRuntime) -> Result<(), Wrong> {
    each_line_holds(&mut Actions, rt.alloc(), OF_EXPORTERS_AND_STORES)
}

const RAW_WRITES: &str = "\
raw west put a%2fb %25-| => Raw { remote: 1, write: Put { key: 'a/b', value: '%-' } }
raw west put a -| => Raw { remote: 1, write: Put { key: 'a', value: '' } }
raw east delete put| => Raw { remote: 0, write: Delete { key: 'put' } }
";

#[test]
fn each_raw_write_is_read(rt: HostRuntime) -> Result<(), Wrong> {
    each_line_holds(&mut Actions, rt.alloc(), RAW_WRITES)
}

const ON_THE_WAY_TO_THE_AGENT: &str = "\
compact home 1000000000| => Compact { store: Local, revision: 1000000000 }
compact west 1| => Compact { store: Remote(1), revision: 1 }
link west agent up| => Link { remote: 1, link: Agent, up: true }
link east exporter down| => Link { remote: 0, link: Exporter, up: false }
fail west exporter 0 before| => Fail { remote: 1, link: Exporter, skip: 0, moment: Before }
fail east agent 1000000 after| => Fail { remote: 0, link: Agent, skip: 1000000, moment: After }
turn agent west all| => Turn { remote: 1, count: All }
turn agent east 1| => Turn { remote: 0, count: Of(1) }
restart  agent| => RestartAgent
";

#[test]
fn each_action_on_the_way_to_the_agent_is_read(rt: HostRuntime) -> Result<(), Wrong> {
    each_line_holds(&mut Actions, rt.alloc(), ON_THE_WAY_TO_THE_AGENT)
}
