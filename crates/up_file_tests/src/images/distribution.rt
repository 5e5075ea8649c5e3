//! The job files and overrides of the folder `examples/distribution`, each below a line `%file PATH`.
//!
//! Written by oracle/distribution.py.

pub(crate) const DISTRIBUTION: &'static str = "\
%file backup.conf\n\
# Nightly copy of the home folders; whoever knows the time gives the event.\n\
\n\
description \"copies the home folders to the backup disk\"\n\
author      \"Tadrovec examples\"\n\
\n\
start on backup-due\n\
stop on runlevel [!2345]\n\
\n\
task\n\
env TARGET=\"/media/backup disk/home\"\n\
env KEEP=7\n\
kill timeout 120\n\
\n\
script\n\
\x20   # the disk may be away; that's no failure\n\
\x20   [ -d \"$TARGET\" ] || exit 0\n\
\x20   cp -a /home \"$TARGET/$(date +%F)\"\n\
\x20   ls -1d \"$TARGET\"/* | head -n -\"$KEEP\" | xargs -r -d '\\n' rm -rf --\n\
end script\n\
%file backup.override\n\
# A slow disk: more time, and out of everybody's way.\n\
kill timeout 600\n\
nice 10\n\
env KEEP=30\n\
%file bluetooth.conf\n\
# bluetooth - the daemon of the short-range radio\n\
\n\
description\t\"short-range radio\"\n\
\n\
start on started message-bus\n\
stop on stopping message-bus\n\
\n\
env UART=/etc/bluetooth/uart\n\
env OPTIONS=\n\
\n\
respawn\n\
respawn limit unlimited\n\
\n\
pre-start script\n\
\t# without a radio there is nothing to do\n\
\tif ! test -d /sys/class/bluetooth; then\n\
\t\tstop\n\
\t\texit 0\n\
\tfi\n\
end script\n\
\n\
exec /usr/sbin/radiod --foreground $OPTIONS\n\
\n\
post-start script\n\
\t[ ! -r \"$UART\" ] || while read -r line; do\n\
\t\tuart-attach $line || :\n\
\tdone < \"$UART\"\n\
end script\n\
%file bluetooth.override\n\
# On this machine only by hand.\n\
manual\n\
%file clock-sync.conf\n\
description \"sets the clock — by those of other machines\"\n\
\n\
# Any card but the loop will do.\n\
start on ((net-device-up IFACE!=lo      # (the loop is always there)\n\
\x20          and local-filesystems)\n\
\x20         or clock-jumped)\n\
stop on runlevel [016]\n\
\n\
respawn\n\
normal exit 0 TERM\n\
kill timeout 10\n\
\n\
env SERVERS=\"0.pool.example.org 1.pool.example.org\"\n\
env DRIFT='/var/lib/clock/drift'\n\
\n\
pre-start exec mkdir -p /var/lib/clock\n\
\n\
script\n\
\x20   set --\n\
\x20   for server in $SERVERS; do\n\
\x20       set -- \"$@\" --server \"$server\"\n\
\x20   done\n\
\x20   exec /usr/sbin/clockd --foreground --drift \"$DRIFT\" \"$@\"\n\
end script\n\
%file console-setup.conf\n\
# Font and keys, before the login appears on a terminal.\n\
\n\
start on starting getty TTY=tty[1-6]\n\
\n\
task\n\
instance $TTY\n\
console output\n\
\n\
exec /sbin/console-font --keys /etc/keymap.gz --tty $TTY\n\
%file control-alt-delete.conf\n\
# Three keys at once: down in good order, and up again.\n\
\n\
start on control-alt-delete\n\
\n\
task\n\
exec /sbin/shutdown -r now \"Control, Alt and Delete were pressed\"%file cron.conf\n\
description\t\"runs commands when their time has come\"\n\
version\t\t'4.1'\n\
\n\
start on runlevel [2345]\n\
stop on runlevel [!2345]\n\
\n\
respawn\n\
respawn limit 10 5\n\
emits cron-ready \\\n\
\x20     cron-reloaded\n\
reload signal HUP\n\
\n\
exec /usr/sbin/crond -f -L 15\n\
%file database.conf\n\
description \"tables for all services\"\n\
\n\
start on filesystem and started syslog\n\
stop on runlevel [06]\n\
\n\
kill signal INT\n\
kill timeout 300\n\
env DATA=\"/srv/db\"\n\
\n\
# nobody else may read what it writes\n\
umask 0077\n\
limit nofile 65536 65536\n\
\n\
exec /usr/sbin/tabled --data $DATA\n\
%file display.conf\n\
# The graphical login, in runlevel 5 alone.\n\
\n\
start on stopped rc RUNLEVEL=5\n\
stop on starting rc RUNLEVEL=[!5]\n\
\n\
console output\n\
respawn\n\
respawn limit 10 120\n\
env BACKGROUND=\"#336699\"\n\
env LANG\n\
\n\
exec /usr/sbin/login-screen --foreground \\\n\
\t--background \"$BACKGROUND\"\n\
post-stop exec /usr/bin/console-mode --text\n\
%file getty.conf\n\
# One login on one terminal:\n\
#\n\
#     initctl start getty TTY=tty3\n\
\n\
description \"login on a terminal\"\n\
usage 'TTY=ttyN, the terminal'\n\
\n\
stop on runlevel [S016] or tty-removed TTY=$TTY\n\
\n\
instance $TTY\n\
export TTY\n\
respawn\n\
exec /sbin/getty -8 38400 $TTY\n\
%file hostname.conf\n\
description \"names the machine\"\n\
\n\
start on startup\n\
\n\
task\n\
script\n\
\x20   name=localhost\n\
\x20   test -s /etc/hostname && read -r name < /etc/hostname\n\
\x20   echo \"$name\" > /proc/sys/kernel/hostname\n\
end script\n\
%file hwclock-save.conf\n\
description\t\"writes the time to the clock that runs on a battery\"\n\
\n\
start on runlevel [06]\n\
\n\
task\n\
normal exit 0 1\n\
\n\
pre-start script\n\
\x20   # in a container there is no such clock\n\
\x20   [ ! -e /run/container ] || { stop; exit 0; }\n\
end script\n\
\n\
exec /sbin/hwclock --systohc\n\
%file mail-relay.conf\n\
# Takes mail from the machines of this house and hands it on.\n\
\n\
description \"mail relay\"\n\
author \"Tadrovec examples\"\n\
\n\
start on (runlevel [2345]\n\
\x20         and net-device-up IFACE!=lo)\n\
stop on runlevel [!2345]\n\
\n\
respawn\n\
normal exit 0 75 TERM\n\
env SPOOL=\"/var/spool/mail out\"\n\
\n\
limit nofile 4096 16384\n\
\n\
pre-start script\n\
\x20   [ -d \"$SPOOL\" ] || install -d -m 0700 \"$SPOOL\"\n\
end script\n\
\n\
exec /usr/sbin/relayd --foreground --spool \"$SPOOL\"\n\
%file message-bus.conf\n\
# The bus over which the services of the machine talk.\n\
\n\
description\t\"message bus\"\n\
\n\
start on local-filesystems\n\
stop on deconfiguring-networking\n\
\n\
respawn\n\
expect fork\n\
\n\
pre-start script\n\
\tinstall -d -o bus -g bus /run/bus\n\
end script\n\
\n\
exec /usr/bin/busd --machine --detach\n\
\n\
post-stop exec rm -f /run/bus/socket\n\
%file metrics.conf\n\
description \"counts what the machine does, and keeps the counts\"\n\
author \"Tadrovec examples\"\n\
\n\
start on started system-services\n\
stop on stopping system-services\n\
\n\
setuid metrics\n\
setgid metrics\n\
respawn\n\
respawn limit 3 60\n\
\n\
env RATE=10\n\
export RATE\n\
\n\
exec /usr/bin/metricsd --every \"$RATE\"\n\
%file mount-all.conf\n\
# Mounts what the table of file systems names, and tells how far it is.\n\
\n\
description \"mounts file systems\"\n\
\n\
start on startup\n\
stop on starting rcS\n\
\n\
emits virtual-filesystems\n\
emits local-filesystems remote-filesystems\n\
emits all-swaps filesystem mounting mounted\n\
\n\
task\n\
console output\n\
kill timeout 20\n\
\n\
script\n\
\x20   . /etc/default/rcS 2>/dev/null || true\n\
\x20   [ \"$FSCKFIX\" = yes ] && fix=--force-fix\n\
\x20   exec /sbin/mounter --all ${fix:-}\n\
end script\n\
\n\
post-stop script\n\
\x20   rm -f /run/nologin\n\
end script\n\
%file net/bridge.conf\n\
# A bridge, or cards that act as one, for each family of addresses.\n\
\n\
description \"bridges\"\n\
\n\
start on net-device-added INTERFACE=br* or net-device-added INTERFACE=bond?\n\
stop on net-device-removed INTERFACE=$INTERFACE\n\
\n\
instance \"$INTERFACE/${FAMILY:-inet}\"\n\
export INTERFACE FAMILY\n\
\n\
pre-start exec /sbin/bridge-up \"$INTERFACE\" \"${FAMILY:-inet}\"\n\
post-stop exec /sbin/bridge-down \"$INTERFACE\" \"${FAMILY:-inet}\"\n\
%file net/dhcp-client.conf\n\
description \"asks for an address\"\n\
\n\
start on net-device-up IFACE!=lo METHOD=dhcp\n\
stop on net-device-down IFACE=$IFACE\n\
\n\
instance $IFACE\n\
respawn\n\
normal exit 2 SIGINT\n\
kill signal SIGINT\n\
kill timeout 15\n\
console none\n\
chdir \"/var/lib/dhcp client\"\n\
\n\
exec /sbin/addressd --foreground \\\n\
\x20    --leases ${IFACE}.leases \\\n\
\x20    --hostname \"$(cat /proc/sys/kernel/hostname)\" \\\n\
\x20    $IFACE   # the card comes last\n\
%file net/firewall.conf\n\
# Up before the first card. There is no process that stays.\n\
\n\
description \"packet filter\"\n\
\n\
start on (starting net/interfaces\n\
\x20         or starting net/dhcp-client)\n\
stop on runlevel [016]\n\
\n\
pre-start exec /sbin/packet-filter --load /etc/filter.rules\n\
post-stop exec /sbin/packet-filter --flush\n\
%file net/interfaces.conf\n\
# Every card that the file of cards names.\n\
\n\
description \"network cards\"\n\
\n\
start on ( (local-filesystems\n\
\x20           and started udev)           # cards are known\n\
\x20          or ( net-device-added\n\
\x20               and container CONTAINER!=no ) )\n\
stop on deconfiguring-networking\n\
\n\
emits net-device-up net-device-down\n\
console log\n\
\n\
pre-start exec /sbin/cards up --all\n\
\n\
pre-stop script\n\
\x20   # mounts over the net must be gone before\n\
\x20   if grep -q '^[^ ]* [^ ]* nfs' /proc/mounts; then\n\
\x20       umount -a -t nfs,nfs4 || echo \"some mounts are busy\" >&2\n\
\x20   fi\n\
end script\n\
\n\
post-stop exec /sbin/cards down --all --except=lo\n\
%file net/resolver.conf\n\
description \"answers for names\"\n\
\n\
start on net-device-up IFACE=lo\n\
stop on runlevel [!2345]\n\
\n\
instance ${ZONE:-all}\n\
\n\
apparmor load /etc/apparmor.d/usr.sbin.resolverd\n\
\n\
respawn\n\
exec /usr/sbin/resolverd --foreground --zone \"${ZONE:-all}\"\n\
%file print-spool.conf\n\
# Queues of the printers.\n\
\n\
description \"printers\"\n\
\n\
start on (filesystem\n\
\x20         and (started message-bus or runlevel [2345])) \\\n\
\x20        or socket PROTO=inet PORT=631\n\
stop on runlevel [016]\n\
\n\
respawn\n\
respawn limit 3 12\n\
pre-start script\n\
\x20   [ -x /usr/sbin/spoold ]\n\
\x20   cat > /run/spoold.conf <<END\n\
# made at each start\n\
Browse ${BROWSE-no}\n\
expect nothing\n\
END\n\
end script\n\
\n\
\x20 expect daemon\n\
\n\
exec /usr/sbin/spoold --config /run/spoold.conf\n\
%file quota.override\n\
# Its job file isn't installed, so this is neither read nor reported.\n\
manual of nothing\n\
%file rc.conf\n\
# The scripts of a runlevel.\n\
\n\
description \"scripts of a runlevel\"\n\
\n\
start on runlevel [0123456]\n\
stop on runlevel [!$RUNLEVEL]\n\
\n\
task\n\
\n\
export RUNLEVEL PREVLEVEL\n\
console output\n\
env VERBOSE\n\
env VERBOSE=no\n\
\n\
exec /sbin/level-scripts --from \"$PREVLEVEL\" --to \"$RUNLEVEL\"\n\
%file rcS.conf\n\
# First of all scripts, and those for one user alone.\n\
\n\
start on startup\n\
stop on runlevel\n\
\n\
task\n\
console output\n\
\n\
pre-start script\n\
\tfor word in $(cat /proc/cmdline); do\n\
\t\tcase \"$word\" in\n\
\t\t-b|rescue)\n\
\t\t\tinitctl emit --no-wait rescue CAUSE=\"$word\" || true\n\
\t\t\t;;\n\
\t\tesac\n\
\tdone\n\
end script\n\
\n\
exec /sbin/first-scripts\n\
\n\
post-stop script\n\
\tlevel=2\n\
\t[ ! -r /etc/inittab ] || level=$(sed -n 's/^id:\\([0-6]\\):.*/\\1/p' /etc/inittab)\n\
\texec telinit \"${level:-2}\"\n\
end script\n\
%file remote-login.conf\n\
# Logins from elsewhere.\n\
\n\
description \"remote logins\"\n\
\n\
start on (runlevel [2345] and filesystem) or rescue\n\
stop on runlevel [!2345]\n\
\n\
respawn\n\
respawn limit 10 5\n\
\n\
# whatever else is killed for memory, this one stays\n\
oom score -999\n\
\n\
pre-start script\n\
\x20   [ -s /etc/remote/key ] || make-host-key > /etc/remote/key\n\
end script\n\
\n\
exec /usr/sbin/remoted --foreground\n\
%file rescue-shell.conf\n\
# A shell for whoever sits at the machine.\n\
\n\
start on rescue\n\
stop on runlevel [!S]\n\
\n\
task\n\
console owner\n\
exec /bin/sulogin\n\
%file splash.conf\n\
# The picture while the machine comes up or goes down.\n\
\n\
start on (starting mount-all or (runlevel [06] and stopped display))\n\
stop on (login-prompt-visible\n\
\x20        or starting display   # it draws its own\n\
\x20        or stopped rc RUNLEVEL=\"[2-5]\")\n\
\n\
normal exit 0 TERM USR2\n\
kill signal USR2\n\
\n\
exec /usr/bin/splash --message \"Please wait,\n\
\x20    the machine isn't ready yet\" --quiet\n\
pre-stop exec /usr/bin/splash --quit --keep-picture\n\
%file start-gettys.conf\n\
# Logins on as many terminals as there should be.\n\
\n\
start on stopped rc RUNLEVEL=[2345]\n\
\n\
task\n\
env CONSOLES=/dev/tty[1-6]\n\
env GRAPHICS=\"/dev/tty1\"\n\
export CONSOLES GRAPHICS\n\
\n\
script\n\
\tfor tty in $(ls -1 $CONSOLES); do\n\
\t\t[ \"$RUNLEVEL\" = 5 -a \"$tty\" = \"$GRAPHICS\" ] && continue\n\
\t\tinitctl start --no-wait getty TTY=\"${tty#/dev/}\"\n\
\tdone\n\
end script\n\
%file syslog.conf\n\
# The log of the machine.\n\
\n\
description \"log\"\n\
emits log-rotated\n\
\n\
start on filesystem\n\
stop on runlevel [06]\n\
\n\
respawn\n\
reload signal SIGHUP\n\
kill timeout 30\n\
\n\
pre-start script\n\
\x20   # an old file says nothing of where the log goes\n\
\x20   if [ -r /etc/default/syslog ]; then\n\
\x20       . /etc/default/syslog\n\
\x20   fi\n\
\x20   install -o syslog -g adm -m 0640 /dev/null /var/log/boot 2>/dev/null || :\n\
end script\n\
\n\
script\n\
\x20   . /etc/default/syslog\n\
\x20   exec /usr/sbin/logd -n $OPTIONS\n\
end script\n\
\n\
post-start exec initctl emit --no-wait log-rotated\n\
%file wait-for.conf\n\
# Holds a job back until another one has come up or is gone.\n\
\n\
description \"waits for a job\"\n\
usage \"WAITER=who waits, WAITED=for which job\"\n\
\n\
stop on started JOB=$WAITED\n\
\x20    \n\
instance $WAITER\n\
task\n\
env WAITED=nobody\n\
env SECONDS=30\n\
kill timeout 1\n\
normal exit 0 2\n\
\n\
script\n\
\x20   initctl status \"$WAITED\" | grep -q ' start/running' && exit 0\n\
\x20   sleep \"$SECONDS\"\n\
\x20   exit 1\n\
end script\n\
%file welcome.conf\n\
# What stands above the login.\n\
\n\
description \"the \\\"welcome\\\" above the login\"\n\
\n\
start on filesystem\n\
\n\
task\n\
script # the shell writes two pieces\n\
\x20   cat > /run/welcome <<-EOF\n\
\tWelcome to $(uname -n).\n\
\t(In here no \"end script\" counts, nor does the next line:\n\
\tthe end  script\n\
\tEOF\n\
\x20   cat >> /run/welcome <<'EOF'\n\
It's \\s \\r on \\l   # a comment for nobody\n\
EOF\n\
\x20   ln -sf /run/welcome /etc/welcome\n\
end script   # of the only process\n\
";
