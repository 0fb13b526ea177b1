// What tables of two sources are told, and what they report.
ghost use Rattle.std.specs.Prelude.{◌≡◌, ◌<◌, IfOk, IfSome, OnOk, Some, length, slice_get};
ghost use Rattle.std.specs.Option.{ForSome};
ghost use Rattle.shared_tables.specs.Told.{IsChange, IsRow, told, with_change};
ghost use Rattle.table_tests.specs.Mesh.{IsRowAt, Knows, is_told, names};

use crate::words::{first_word, on_one_line};
use key_paths::{Hop, is_record_key};
use mesh_base::{Bytes, Memory};
use mesh_text::ClusterName;
use record_check::{Limit, check_config, read_pair};
use report_text::{Head, report_bytes};
use shared_tables::{RecordChange, Report, Row, Steps, Tables};
use std::alloc::Global;
use std::marker::Brand;
use std::sync::ledger::{Blank, Ledger};
use test_cases::{Answers, Wrong, each_line_holds};

/// Tables of the sources `west` and `east`, and the keys of their rows, each with the place of its
/// source.
#[derive(Drop)]
struct Mesh {
    tables: Tables,
    keys: Vec<(u32, Bytes)>,
}

fn cluster_name(alloc: Global, text: &str) -> Result<ClusterName, Memory>
    ensures { IfOk result (λ name. name ≡ text.now) }
{
    match ClusterName::read(alloc, text.as_bytes()) {
        Ok(name) => Ok(name),
        Err(_) => Err(Memory),
    }
}

fn source_names(alloc: Global) -> Result<Vec<ClusterName>, Memory>
    ensures { IfOk result (λ sources. sources.items ≡ names) }
{
    let mut sources = Vec::new(alloc);
    sources.push(cluster_name(alloc, "west")?)?;
    sources.push(cluster_name(alloc, "east")?)?;
    Ok(sources)
}

/// A mesh that was told nothing, where the local cluster has this number.
fn new_mesh(alloc: Global, number: u32) -> Result<Mesh, Memory>
    ensures { IfOk result (λ mesh. Knows mesh.keys.items (told mesh.tables)) }
{
    let home = cluster_name(alloc, "home")?;
    let sources = source_names(alloc)?;
    Ok(Mesh {
        tables: Tables::new(alloc, home, number, Limit::Small, sources)?,
        keys: Vec::new(alloc),
    })
}

/// The place of a source of the mesh.
fn place_of(source: &str) -> Option<u32>
    ensures within { IfSome result (λ place. place < 2) }
    ensures named { IfSome result (λ place. slice_get names place ≡ Some source.now) }
{
    match source {
        "west" => Some(0),
        "east" => Some(1),
        _ => None,
    }
}

/// A row of a source, where the key is that of a record of it.
fn row_of(alloc: Global, source: &str, key: &str, value: &str) -> Result<Option<Row>, Memory>
    ensures { IfOk result (λ row. IfSome row (λ row. IsRow source.now row)) }
{
    let name = cluster_name(alloc, source)?;
    if !is_record_key(&name, Hop::State, key.as_bytes()) {
        return Ok(None);
    }
    let reading = read_pair(alloc, key.as_bytes(), value.as_bytes())?;
    let key = Bytes::from_slice(alloc, key.as_bytes())?;
    Ok(Some(Row { key, reading }))
}

fn is_told(keys: &[(u32, Bytes)], place: u32, key: &Bytes) -> bool
    ensures { result ≡ is_told place key.now keys.now }
{
    keys.iter().any(|told| told.0 == place && told.1 == *key)
}

fn tell_change<L: Ledger>(
    tables: &mut Tables,
    change: RecordChange,
    steps: &mut Steps<L>,
) -> Result<(), Memory>
    requires source { change.source < length (told tables.old).sources }
    requires change { ForSome (slice_get (told tables.old).sources change.source) (λ s. IsChange s change) }
    ensures { OnOk result (told tables.new ≡ with_change change (told tables.old)) }
{
    tables.reserve(&change)?;
    tables.apply(change, steps);
    Ok(())
}

/// Tells a row of a source, unless one of its key was told.
fn tell_row<L: Ledger>(
    mesh: &mut Mesh,
    place: u32,
    row: Row,
    steps: &mut Steps<L>,
) -> Result<(), Memory>
    requires row { IsRowAt place row }
    requires known { Knows mesh.old.keys.items (told mesh.old.tables) }
    ensures { OnOk result (Knows mesh.new.keys.items (told mesh.new.tables)) }
{
    if is_told(mesh.keys.as_slice(), place, &row.key) {
        return Ok(());
    }
    mesh.keys.push((place, row.key.clone()?))?;
    let change = RecordChange {
        source: place,
        old: None,
        new: Some(row),
    };
    tell_change(&mut mesh.tables, change, steps)?;
    Ok(())
}

fn tell_config<L: Ledger>(
    alloc: Global,
    mesh: &mut Mesh,
    place: u32,
    value: &str,
    steps: &mut Steps<L>,
) -> Result<(), Memory>
    requires place { place < 2 }
    requires known { Knows mesh.old.keys.items (told mesh.old.tables) }
    ensures { OnOk result (Knows mesh.new.keys.items (told mesh.new.tables)) }
{
    let config = Some(check_config(alloc, Limit::Small, value.as_bytes())?);
    mesh.tables.reserve_readmit(place, &config)?;
    mesh.tables.readmit(place, config, steps);
    Ok(())
}

fn forget(alloc: Global, mesh: &mut Mesh, place: u32)
    requires place { place < 2 }
    requires known { Knows mesh.old.keys.items (told mesh.old.tables) }
    ensures { Knows mesh.new.keys.items (told mesh.new.tables) }
{
    mesh.tables.forget(alloc, place);
}

/// Tells what the words say of a source: `config` and its value, `row` and its key and value, or
/// `forget`.
fn tell_of<L: Ledger>(
    alloc: Global,
    mesh: &mut Mesh,
    source: &str,
    words: (&str, &str),
    steps: &mut Steps<L>,
) -> Result<(), Memory>
    requires { Knows mesh.old.keys.items (told mesh.old.tables) }
    ensures { OnOk result (Knows mesh.new.keys.items (told mesh.new.tables)) }
{
    let Some(place) = place_of(source) else {
        return Ok(());
    };
    match words.0 {
        "config" => tell_config(alloc, mesh, place, words.1, steps)?,
        "forget" => forget(alloc, mesh, place),
        _ => {
            let (key, value) = first_word(words.1);
            if let Some(row) = row_of(alloc, source, key, value)? {
                tell_row(mesh, place, row, steps)?;
            }
        }
    }
    Ok(())
}

/// Tells all lines, with `|` between them.
fn tell_all<L: Ledger>(
    alloc: Global,
    mesh: &mut Mesh,
    lines: &str,
    steps: &mut Steps<L>,
) -> Result<(), Memory>
    requires { Knows mesh.old.keys.items (told mesh.old.tables) }
    ensures { OnOk result (Knows mesh.new.keys.items (told mesh.new.tables)) }
{
    for line in lines.split("|") {
        let (verb, words) = first_word(line);
        let (source, words) = first_word(words);
        tell_of(alloc, mesh, source, (verb, words), steps)?;
    }
    Ok(())
}

fn report_counted<L: Ledger>(
    alloc: Global,
    blank: Blank,
    number: u32,
    script: String,
) -> Result<Report, Memory>
    requires name { blank.name ≡ L.name }
    requires parts { blank.parts ≡ L.parts }
    requires some { 0 < blank.parts }
{
    let mut steps = Steps::<L>::new(blank);
    let mut mesh = new_mesh(alloc, number)?;
    tell_all(alloc, &mut mesh, script.as_str(), &mut steps)?;
    mesh.tables.report(alloc, &mut steps)
}

/// What a mesh reports that was told the script.
fn report_of(alloc: Global, number: u32, script: String) -> Result<Report, Memory> {
    report_counted::<Brand>(alloc, Blank::new(1), number, script)
}

/// The text of what a mesh reports that was told the beginning and then these lines, of which the
/// first has the local cluster's number. There `'` stands for `"`.
fn report_words(alloc: Global, beginning: &str, lines: &str) -> Result<String, Memory> {
    let (first, lines) = lines.split_once("|").unwrap_or((lines, ""));
    let number = first_word(first).1.parse::<u32>().unwrap_or(0);
    let script = format!(in alloc; "{beginning}|{lines}")?;
    let report = report_of(alloc, number, script.replace(alloc, "'", "\"")?)?;
    let text = report_bytes(alloc, Head::Report, 1, &report)?;
    on_one_line(alloc, text.as_slice())
}

/// Reports of meshes that were told this first.
#[derive(Drop)]
struct Reports {
    beginning: &'static str,
}

impl Answers for Reports {
    fn answer(&mut self, alloc: Global, asked: &str) -> Result<String, Memory> {
        report_words(alloc, self.beginning, asked)
    }
}

#[test]
fn each_kind_of_record_has_its_rows(rt: HostRuntime) -> Result<(), Wrong> {
    let beginning = "config east {'id':1}|\
        row east cilium/state/nodes/v1/east/n1 {'Name':'n1','Cluster':'east','ClusterID':1,'IPv4AllocCIDR':'10.1.0.0/24','IPAddresses':[{'Type':'InternalIP','IP':'10.0.0.1'}]}|\
        row east cilium/state/identities/v1/id/68714 k8s:app=web;k8s:io.kubernetes.pod.namespace=shop;|\
        row east cilium/state/ip/v1/default/10.1.0.7 {'IP':'10.1.0.7','HostIP':'10.0.0.1','ID':68714,'K8sNamespace':'shop','K8sPodName':'web-0'}|\
        row east cilium/state/services/v1/east/shop/web {'cluster':'east','namespace':'shop','name':'web','clusterID':1,'backends':{'10.1.0.7':{'http':{'Protocol':'TCP','Port':8080}}}}|\
        row east cilium/state/services/v1/east/shop/own {'cluster':'east','namespace':'shop','name':'own','clusterID':1,'shared':false,'backends':{'10.1.0.8':{'http':{'Protocol':'TCP','Port':8080}}}}";
    let lines = "home 9 => report 1|\
        node east n1 InternalIP=10.0.0.1|\
        identity east 68714 k8s:app=web;k8s:io.kubernetes.pod.namespace=shop;|\
        address 10.1.0.7 east 68714 10.0.0.1 shop web-0|\
        backend shop web east 10.1.0.7,8080,TCP,http|\
        end|";
    each_line_holds(&mut Reports { beginning }, rt.alloc(), lines)
}

#[test]
fn a_faulty_pair_of_an_admitted_source_is_rejected(rt: HostRuntime) -> Result<(), Wrong> {
    let beginning = "config east {'id':1}|\
        row east cilium/state/nodes/v1/east/n1 {'Name':'n1','Cluster':'east','ClusterID':1}|\
        row east cilium/state/nodes/v1/east/n2 {'Name':'n3','Cluster':'east','ClusterID':1}|\
        row east cilium/state/identities/v1/id/68714 k8s";
    let lines = "home 9 => report 1|\
        node east n1|\
        reject east cilium/state/identities/v1/id/68714 label|\
        reject east cilium/state/nodes/v1/east/n2 name|\
        end|";
    each_line_holds(&mut Reports { beginning }, rt.alloc(), lines)
}

// The last line's local cluster has the number of both sources, which comes before that they have
// one number.
#[test]
fn of_two_clusters_with_one_number_the_first_by_name_is_admitted(
    rt: HostRuntime,
) -> Result<(), Wrong> {
    let beginning = "config west {'id':1}|\
        row west cilium/state/nodes/v1/west/w1 {'Name':'w1','Cluster':'west','ClusterID':1}|\
        row east cilium/state/nodes/v1/east/n1 {'Name':'n1','Cluster':'east','ClusterID':1}";
    let lines = "\
home 9|config east {'id':1} => report 1|node east n1|reject west cilium/cluster-config/west id_taken|end|
home 9 => report 1|node west w1|end|
home 9|config east {'id':0} => report 1|node west w1|reject east cilium/cluster-config/east cluster_id|end|
home 9|config east {'id':1,'capabilities':{'maxConnectedClusters':511}} => report 1|node west w1|reject east cilium/cluster-config/east limit|end|
home 1|config east {'id':1} => report 1|reject east cilium/cluster-config/east id_local|reject west cilium/cluster-config/west id_local|end|";
    each_line_holds(&mut Reports { beginning }, rt.alloc(), lines)
}

#[test]
fn an_address_is_shown_for_the_cluster_with_the_least_number(rt: HostRuntime) -> Result<(), Wrong> {
    let beginning = "config west {'id':2}|\
        row west cilium/state/ip/v1/default/10.0.0.5 {'IP':'10.0.0.5','ID':131328}";
    let lines = "\
home 9|config east {'id':1}|row east cilium/state/ip/v1/default/10.0.0.5 {'IP':'10.0.0.5','ID':65792} => report 1|address 10.0.0.5 east 65792 - - -|end|
home 9|config east {'id':5}|row east cilium/state/ip/v1/default/10.0.0.5 {'IP':'10.0.0.5','ID':327936} => report 1|address 10.0.0.5 west 131328 - - -|end|
home 9|row east cilium/state/ip/v1/default/10.0.0.5 {'IP':'10.0.0.5','ID':65792} => report 1|address 10.0.0.5 west 131328 - - -|end|";
    each_line_holds(&mut Reports { beginning }, rt.alloc(), lines)
}

#[test]
fn a_source_that_is_forgotten_has_no_rows(rt: HostRuntime) -> Result<(), Wrong> {
    let beginning = "config west {'id':2}|\
        row west cilium/state/ip/v1/default/10.0.0.5 {'IP':'10.0.0.5','ID':131328}|\
        config east {'id':1}|\
        row east cilium/state/ip/v1/default/10.0.0.5 {'IP':'10.0.0.5','ID':65792}|\
        row east cilium/state/nodes/v1/east/n1 {'Name':'n1','Cluster':'east','ClusterID':1}";
    let lines = "home 9|forget east => report 1|address 10.0.0.5 west 131328 - - -|end|";
    each_line_holds(&mut Reports { beginning }, rt.alloc(), lines)
}
