//! Routes.

ghost use Rattle.std.specs.Prelude.{◌≡◌, Option, option_map, IfOk, OnOk, map, bytes_eq};
ghost use Rattle.matchit.specs.Router.{RouteOf};
ghost use Rattle.tally_desk_routes.specs.Routes.{desk_rows, with_route, with_routes};
ghost use Rattle.tally_desk_routes.specs.Routes.{station_routes};
ghost use Rattle.tally_desk_routes.specs.Routes.{con_routes, command_routes, takes_get};
ghost use Rattle.tally_desk_routes.specs.Routes.{route_method};
ghost use Rattle.tally_desk_routes.specs.Routes.{IsRouted};

use http::Method;
use matchit::{InsertError, Router};
use std::alloc::Global;
use std::str;
use tally_import_records::Sep;
use tally_report_names::Report;

/// The commands on a station.
#[derive(Clone, Copy)]
pub enum StationCommand {
    Lodge,
    Query,
    Correct,
    Close,
    Confirm,
}

/// The commands on a constituency.
#[derive(Clone, Copy)]
pub enum ConCommand {
    Draw,
    Certify,
    Reopen,
    Vacate,
}

/// The thing that a target names.
#[derive(Clone, Copy)]
pub enum Route {
    /// How far each constituency has come.
    Progress,
    /// The return of a station.
    Return,
    /// A constituency.
    Con,
    /// A report of a constituency.
    Report(Report),
    /// The returns of a constituency, as rows that an import takes.
    Returns,
    /// The stations of a constituency, and what each has come to.
    Stations,
    /// The seats and votes of each list over all constituencies.
    Country,
    /// The result of a constituency in one answer.
    Result,
    /// The results of all constituencies.
    Results,
    /// A command on a station.
    OnStation(StationCommand),
    /// A command on a constituency.
    OnCon(ConCommand),
    /// An import into a constituency, of rows with this separator.
    Import(Sep),
    /// The trial of such an import.
    Trial(Sep),
}

// The routes of the whole office and of a station.
const STATION_ROUTES: [(&str, Route); 9] = [
    ("/progress", Route::Progress),
    ("/country", Route::Country),
    ("/results", Route::Results),
    ("/station/{s}", Route::Return),
    (
        "/station/{s}/lodge",
        Route::OnStation(StationCommand::Lodge),
    ),
    (
        "/station/{s}/query",
        Route::OnStation(StationCommand::Query),
    ),
    (
        "/station/{s}/correct",
        Route::OnStation(StationCommand::Correct),
    ),
    (
        "/station/{s}/close",
        Route::OnStation(StationCommand::Close),
    ),
    (
        "/station/{s}/confirm",
        Route::OnStation(StationCommand::Confirm),
    ),
];

// What is shown of a constituency.
const CON_ROUTES: [(&str, Route); 13] = [
    ("/con/{c}", Route::Con),
    ("/con/{c}/tally", Route::Report(Report::Tally)),
    ("/con/{c}/seats", Route::Report(Report::Seats)),
    ("/con/{c}/quotients", Route::Report(Report::Quotients)),
    ("/con/{c}/awards", Route::Report(Report::Awards)),
    ("/con/{c}/quota", Route::Report(Report::Quota)),
    ("/con/{c}/short", Route::Report(Report::Short)),
    ("/con/{c}/holders", Route::Report(Report::Holders)),
    ("/con/{c}/past", Route::Report(Report::Past)),
    ("/con/{c}/provisional", Route::Report(Report::Provisional)),
    ("/con/{c}/returns", Route::Returns),
    ("/con/{c}/stations", Route::Stations),
    ("/con/{c}/result", Route::Result),
];

// The commands on a constituency, the imports into it and their trials.
const COMMAND_ROUTES: [(&str, Route); 8] = [
    ("/con/{c}/draw", Route::OnCon(ConCommand::Draw)),
    ("/con/{c}/certify", Route::OnCon(ConCommand::Certify)),
    ("/con/{c}/reopen", Route::OnCon(ConCommand::Reopen)),
    ("/con/{c}/vacate", Route::OnCon(ConCommand::Vacate)),
    ("/con/{c}/import", Route::Import(Sep::Comma)),
    ("/con/{c}/import/semicolon", Route::Import(Sep::Semicolon)),
    ("/con/{c}/trial", Route::Trial(Sep::Comma)),
    ("/con/{c}/trial/semicolon", Route::Trial(Sep::Semicolon)),
];

/// Adds a route.
#[tactic(auto, unfolding(crate::specs::Routes::with_route))]
fn add(router: &mut Router<Route>, text: &str, route: Route) -> Result<(), InsertError>
    ensures { OnOk result (router.new ≡ with_route router.old (text.now, route)) }
{
    router.insert(text, route)
}

/// Adds the routes of a table.
fn add_all(router: &mut Router<Route>, table: &[(&str, Route)]) -> Result<(), InsertError>
    ensures { OnOk result (router.new
        ≡ with_routes router.old (map (λ row. (row.0.now, row.1)) table.now)) }
{
    for (text, route) in table {
        add(router, text, *route)?;
    }
    Ok(())
}

/// Adds the routes of the desk.
fn add_desk_routes(router: &mut Router<Route>) -> Result<(), InsertError>
    ensures { OnOk result (router.new ≡ with_routes (with_routes
        (with_routes router.old station_routes) con_routes) command_routes) }
{
    add_all(router, &STATION_ROUTES)?;
    add_all(router, &CON_ROUTES)?;
    add_all(router, &COMMAND_ROUTES)
}

/// The desk's routes.
pub fn desk_router(alloc: Global) -> Result<Router<Route>, InsertError>
    ensures { IfOk result (λ router. router ≡ desk_rows) }
{
    let mut router = Router::new(alloc);
    add_desk_routes(&mut router)?;
    Ok(router)
}

/// The route of a target, as `matchit` finds it.
pub fn route_of(router: &Router<Route>, target: &[u8]) -> Option<Route>
    requires { router.now ≡ desk_rows }
    ensures { (row : Option (RouteOf Route)) × IsRouted target.now row
        × (result ≡ option_map (λ e. e.value) row) }
{
    let Ok(text) = str::from_utf8(target) else {
        return None;
    };
    match router.at(text) {
        Ok(found) => Some(*found.value),
        Err(_) => None,
    }
}

/// Whether a route takes GET; the others take POST.
pub fn takes_get(route: Route) -> bool
    ensures { result ≡ takes_get route }
{
    match route {
        Route::Progress | Route::Return | Route::Con | Route::Report(_) => true,
        Route::Returns | Route::Stations | Route::Country => true,
        Route::Result | Route::Results => true,
        Route::OnStation(_) | Route::OnCon(_) | Route::Import(_) | Route::Trial(_) => false,
    }
}

/// Whether a route takes a method.
pub fn takes(route: Route, method: &Method) -> bool
    ensures { result ≡ bytes_eq method.now (route_method route) }
{
    if takes_get(route) {
        return *method == Method::GET;
    }
    *method == Method::POST
}
