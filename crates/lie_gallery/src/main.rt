//! Prints the reports of symmetries of the examples, which are its data, one behind the other in the order of their names.
#![tactic(auto)]

use lie_app::{Status, code, run};
use lie_keep::MemoryKeeper;
use lie_outer::{HostFiles, HostSink, MemoryLink, NoMemory};
use std::alloc::Global;
use std::process::ExitCode;

// The files of the systems.
const FILES: [&str; 46] = [
    "benjamin_bona_mahony.lie",
    "blasius.lie",
    "boussinesq.lie",
    "burgers.lie",
    "burgers_potential.lie",
    "camassa_holm.lie",
    "chazy.lie",
    "davey_stewartson.lie",
    "diffusion.lie",
    "emden_fowler.lie",
    "euler.lie",
    "falkner_skan.lie",
    "filtration.lie",
    "fisher.lie",
    "fitzhugh_nagumo.lie",
    "free_particle.lie",
    "gas.lie",
    "growth.lie",
    "harry_dym.lie",
    "heat.lie",
    "henon_heiles.lie",
    "hunter_saxton.lie",
    "kadomtsev_petviashvili.lie",
    "khokhlov_zabolotskaya.lie",
    "klein_gordon.lie",
    "kolmogorov.lie",
    "korteweg_de_vries.lie",
    "kuramoto_sivashinsky.lie",
    "laplace.lie",
    "line.lie",
    "liouville.lie",
    "lorenz.lie",
    "manakov.lie",
    "modified_korteweg_de_vries.lie",
    "navier_stokes.lie",
    "painleve.lie",
    "painleve_ince.lie",
    "potential_korteweg_de_vries.lie",
    "prandtl.lie",
    "sawada_kotera.lie",
    "schroedinger.lie",
    "shallow_water.lie",
    "slope.lie",
    "storm.lie",
    "wave.lie",
    "zakharov_kuznetsov.lie",
];

// The words that ask for the report of a file.
fn words_for(alloc: Global, file: &str) -> Result<Vec<String>, NoMemory> {
    let mut words = Vec::new(alloc);
    words.push(String::from_str(alloc, "analyse")?)?;
    words.push(String::from_str(alloc, file)?)?;
    Ok(words)
}

// Puts the reports up to the first that is refused. Without memory for the objects of the system there is none.
fn put_reports(rt: &HostRuntime) -> Result<Status, NoMemory> {
    let alloc = rt.alloc();
    let mut files = HostFiles::new(rt, alloc)?;
    let mut out = HostSink::out(rt, alloc)?;
    let mut err = HostSink::err(rt, alloc)?;
    let mut keeper = MemoryKeeper::new(Vec::new(alloc), Vec::new(alloc));
    for file in FILES {
        let words = words_for(alloc, file)?;
        let mut link = MemoryLink::new(Vec::new(alloc), Vec::new(alloc));
        let status = run(
            alloc,
            &words,
            &mut files,
            &mut out,
            &mut err,
            &mut keeper,
            &mut link,
        );
        if !matches!(status, Status::Done) {
            return Ok(status);
        }
    }
    Ok(Status::Done)
}

fn main(rt: HostRuntime) -> ExitCode {
    let status = put_reports(&rt).unwrap_or(Status::NoMemory);
    ExitCode::from(code(&status))
}
