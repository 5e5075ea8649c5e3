//! Bundles of several folders.
use crate::replay::check;

// What a bundle is about, the bundle, what is printed for it, and the status.
type Case = (&'static str, &'static [u8], &'static str, u8);

static BUNDLES: [Case; 8] = [
    (
        "a_load_takes_the_next_folder",
        b"%file a.conf\nstart on go\nexec /bin/d\n%folder\n%file b.conf\nstart on go\nexec /bin/b\n%script\nemit go\nturn 3\nspawned a \"\" main 100\nturn 1\nload 1\nrequest 2 list\nrequest 3 start a\n",
        "event starting JOB=\"a\" INSTANCE=\"\"\nspawn a main \"/bin/d\"\n  UPSTART_EVENTS=\"go\"\n  UPSTART_JOB=\"a\"\n  UPSTART_INSTANCE=\"\"\nevent started JOB=\"a\" INSTANCE=\"\"\nreply 1 ok \"\"\nreply 2 ok \"a start/running, process 100\\nb stop/waiting\"\nreply 3 failed \"Unknown job: a\"\n",
        0,
    ),
    (
        "a_load_without_a_folder",
        b"%folder\n%script\nload 1\nload 1\n",
        "-:4: bad step\n",
        2,
    ),
    (
        "the_first_folder_is_empty",
        b"%folder\n%file a.conf\nexec /bin/d\n%script\nrequest 1 list\nload 2\nrequest 3 list\n",
        "reply 1 ok \"\"\nreply 2 ok \"\"\nreply 3 ok \"a stop/waiting\"\n",
        0,
    ),
    (
        "folders_are_taken_in_order",
        b"%folder\n%file a.conf\nexec /bin/d\n%folder\n%file b.conf\nexec /bin/d\n%script\nload 1\nrequest 2 list\nload 3\nrequest 4 list\n",
        "reply 1 ok \"\"\nreply 2 ok \"a stop/waiting\"\nreply 3 ok \"\"\nreply 4 ok \"b stop/waiting\"\n",
        0,
    ),
    (
        "a_line_of_no_file",
        b"%file a.conf\nexec /bin/d\n%folder\n\n%script\nnonsense\n",
        "-:4: bad step\n",
        2,
    ),
    (
        "one_folder_is_refused",
        b"%file a.conf\nnonsense\n%folder\n%file b.conf\n%file b.conf\n%folder\n%file c.conf\nnonsense\n%script\nnonsense\n",
        "initd: 21 SameName\n",
        3,
    ),
    (
        "faults_of_each_folder",
        b"%file b.conf\nnonsense\n%folder\n%file a.conf\nnonsense\n%script\nload 1\n",
        "b.conf:1: 1 UnknownStanza\na.conf:1: 1 UnknownStanza\nreply 1 ok \"\"\n",
        1,
    ),
    (
        "faults_stand_before_a_bad_step",
        b"%folder\n%file a.conf\nnonsense\n%script\nload one\n",
        "a.conf:1: 1 UnknownStanza\n-:5: bad step\n",
        2,
    ),
];

#[test]
fn folders_of_bundles(rt: HostRuntime) {
    for (place, (name, bundle, printed, status)) in BUNDLES.iter().enumerate() {
        let mut reader: &[u8] = bundle;
        check(&rt, &mut reader, (printed, *status), (name, place));
    }
}
